ghost use Rattle.std.specs.Prelude.{◌≡◌, ◌++◌, List, option_to_list};
ghost use Rattle.host_tags.specs.Slots.{flight_at};
ghost use Rattle.port_rules.specs.Autopsy.{all_kinds, has_io, has_io_error};
ghost use Rattle.port_rules.specs.Blame.{JudgedIssue};
ghost use Rattle.port_telling.specs.Walks.{slots_in};
ghost use Rattle.port_recovery.specs.Findings.{judged_under, view_in};
ghost use Rattle.port_recovery.specs.Tallies.{IsTally};

use crate::issues::{final_kinds, is_io_issue, link_told, owned_at};
use ata_base::{Kinds, Place, TAG_COUNT, Tag};
use port_ledger::Ledger;

/// What the owned issues of a place come to.
#[derive(Drop)]
pub struct Tally {
    /// Their kinds, and those of the place.
    pub kinds: Kinds,
    /// Whether one is of a read, a write or a flush.
    pub io: bool,
    /// Whether one that is has final kinds.
    pub io_error: bool,
}

/// What the owned issues of a place come to.
pub fn tally_up(ledger: &Ledger, place: Place) -> Tally
    ensures kinds { result.kinds.0 ≡ all_kinds (view_in ledger.now place) }
    ensures io { result.io ≡ has_io (view_in ledger.now place) }
    ensures io_error { result.io_error ≡ has_io_error (view_in ledger.now place) }
{
    let mut all = Tally {
        kinds: link_told(ledger, place).0,
        io: false,
        io_error: false,
    };
    for tag in 0..TAG_COUNT as u8 {
        all = with_issue_at(ledger, place, Tag::at(tag), all);
    }
    all
}

/// A tally with the issue under a tag, where it is an owned one of the place.
#[tactic(auto, using(crate::proofs::TallyLemmas::tally_same, crate::proofs::TallyLemmas::tally_more))]
fn with_issue_at(ledger: &Ledger, place: Place, tag: Tag, was: Tally) -> Tally
    ensures { (issues : List JudgedIssue) → IsTally (view_in ledger.now place) issues was
        → IsTally (view_in ledger.now place) (issues ++ option_to_list (judged_under (view_in ledger.now place) tag (flight_at (slots_in ledger.now) tag))) result }
{
    let flight = match owned_at(ledger, place, tag) {
        Some(flight) => flight,
        None => return was,
    };
    let kinds = final_kinds(ledger, place, tag, &flight);
    let io = is_io_issue(ledger, place, &flight);
    Tally {
        kinds: was.kinds.union(kinds),
        io: was.io || io,
        io_error: was.io_error || (io && kinds != Kinds::none()),
    }
}
