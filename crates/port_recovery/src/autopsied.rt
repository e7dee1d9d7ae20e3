ghost use Rattle.std.specs.Prelude.{◌≡◌, ◌+◌, ◌≤◌, flat_map};
ghost use Rattle.std.specs.List.{list_any};
ghost use Rattle.host_tags.specs.Slots.{is_owned_at};
ghost use Rattle.port_ledger.specs.LedgerView.{past};
ghost use Rattle.port_past.specs.Heads.{places_of};
ghost use Rattle.port_rules.specs.Autopsy.{autopsy_acts, autopsy_of, examined_acts, is_examined};
ghost use Rattle.port_rules.specs.AutopsyView.{autopsy_view};
ghost use Rattle.port_telling.specs.Adds.{Adds};
ghost use Rattle.port_recovery.specs.Findings.{view_in};

use crate::findings::findings_at;
use crate::judging::judge_all;
use crate::recording::{heat_if, record_if};
use ata_base::Place;
use ata_trace::Act;
use host_tags::{InFlight, Slots};
use port_ledger::Ledger;

/// The autopsy of a recovery: each place that is examined has its own, place after place.
#[tactic(auto, using(port_telling::proofs::AddLemmas::adds_act, port_telling::proofs::AddLemmas::adds_more))]
pub fn autopsy(ledger: &mut Ledger)
    requires room { 128 ≤ ledger.old.room }
    ensures { Adds ledger.old ledger.new (autopsy_acts ledger.old.head (past ledger.old)) }
{
    examine_all(ledger);
    ledger.note(Act::Autopsied);
}

/// Examines the places of the port in order. No place takes more than four acts beside those of its issues.
fn examine_all(ledger: &mut Ledger)
    requires room { 128 ≤ ledger.old.room }
    ensures adds { Adds ledger.old ledger.new
        (flat_map (λ place. examined_acts (autopsy_view ledger.old.head (past ledger.old) place)) (places_of ledger.old.head)) }
    ensures spare { ledger.old.room ≤ ledger.new.room + 92 }
{
    for at in 0..ledger.head().places {
        examine(ledger, Place::at(at));
    }
}

/// The autopsy of a place, where it is examined.
fn examine(ledger: &mut Ledger, place: Place)
    requires room { 36 ≤ ledger.old.room }
    ensures { Adds ledger.old ledger.new (examined_acts (view_in ledger.old place)) }
{
    if is_examined(ledger, place) {
        dissect(ledger, place);
    }
}

/// Whether a place is examined: it has an owned issue or an SError bit, or is place 0 of a frozen direct port.
fn is_examined(ledger: &Ledger, place: Place) -> bool
    ensures { result ≡ is_examined (view_in ledger.now place) }
{
    any_owned_at(ledger.slots(), place)
        || ledger.serror(place) != 0
        || (place.get() == 0 && !ledger.head().pmp && ledger.is_frozen())
}

/// Whether recovery owns an issue of a place.
fn any_owned_at(slots: &Slots, place: Place) -> bool
    ensures { result ≡ list_any (is_owned_at place) slots.now }
{
    slots.flights().iter().any(|slot| is_owned_at(slot, place))
}

/// Whether the issue in a slot is one of a place that recovery owns.
fn is_owned_at(slot: &Option<InFlight>, place: Place) -> bool
    ensures { result ≡ is_owned_at place slot.now }
{
    match slot {
        Some(flight) => flight.place.get() == place.get() && flight.owned,
        None => false,
    }
}

/// The autopsy of a place. All that decides is read before its first act.
fn dissect(ledger: &mut Ledger, place: Place)
    requires room { 36 ≤ ledger.old.room }
    ensures { Adds ledger.old ledger.new (autopsy_of (view_in ledger.old place)) }
{
    let found = findings_at(ledger, place);
    judge_all(ledger, place);
    record_if(ledger, place, &found);
    heat_if(ledger, place, &found);
    ledger.note(Act::Action {
        place,
        kinds: found.kinds,
        action: found.action,
    });
}
