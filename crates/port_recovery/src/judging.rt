ghost use Rattle.std.specs.Prelude.{◌≡◌, ◌+◌, ◌≤◌, option_to_list};
ghost use Rattle.host_tags.specs.Slots.{flight_at};
ghost use Rattle.port_rules.specs.Blame.{judged_here};
ghost use Rattle.port_telling.specs.Adds.{Adds};
ghost use Rattle.port_telling.specs.Walks.{slots_in};
ghost use Rattle.port_recovery.specs.Findings.{judged_under, judgements, view_in};

use crate::issues::{final_kinds, owned_at};
use ata_base::{Place, TAG_COUNT, Tag};
use ata_trace::Act;
use port_ledger::Ledger;

/// The owned issues of a place are judged, in tag order.
pub fn judge_all(ledger: &mut Ledger, place: Place)
    requires room { 32 ≤ ledger.old.room }
    ensures adds { Adds ledger.old ledger.new (judgements (judged_here (view_in ledger.old place))) }
    ensures spare { ledger.old.room ≤ ledger.new.room + 32 }
{
    for tag in 0..TAG_COUNT as u8 {
        judge_at(ledger, place, Tag::at(tag));
    }
}

/// The issue under a tag is judged, where it is an owned one of a place.
#[tactic(auto, using(port_telling::proofs::AddLemmas::adds_act))]
fn judge_at(ledger: &mut Ledger, place: Place, tag: Tag)
    requires room { 1 ≤ ledger.old.room }
    ensures { Adds ledger.old ledger.new
        (judgements (option_to_list (judged_under (view_in ledger.old place) tag (flight_at (slots_in ledger.old) tag)))) }
{
    let flight = match owned_at(ledger, place, tag) {
        Some(flight) => flight,
        None => return,
    };
    let kinds = final_kinds(ledger, place, tag, &flight);
    ledger.note(Act::Judged {
        number: flight.number,
        kinds,
    });
}
