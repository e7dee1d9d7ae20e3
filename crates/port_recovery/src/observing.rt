ghost use Rattle.std.specs.Prelude.{◌≡◌, ◌<◌, ◌≤◌, ◌^◌, IfSome, is_some, find, length, position, option_copied, option_map};
ghost use Rattle.std.specs.List.{list_any};
ghost use Rattle.eh_flow.specs.Laws.{place_of};
ghost use Rattle.host_tags.specs.Slots.{is_owned_queued_at};
ghost use Rattle.port_ledger.specs.DriveParts.{drive_of};
ghost use Rattle.port_ledger.specs.LedgerView.{past};
ghost use Rattle.port_past.specs.Clock.{clock};
ghost use Rattle.port_past.specs.Drain.{is_drained};
ghost use Rattle.port_past.specs.Heads.{places_of};
ghost use Rattle.port_past.specs.Logs.{logs};
ghost use Rattle.port_past.specs.Noted.{tferr_noted};
ghost use Rattle.port_past.specs.Slots.{slots};
ghost use Rattle.port_rules.specs.Begin.{is_awaited};
ghost use Rattle.port_rules.specs.Logs.{is_log_owed, log_owed};
ghost use Rattle.port_rules.specs.Observing.{drive_at_some, has_answered, observed, ready_of};

use ata_base::{Ms, Place, Tag};
use drive_model::Drive;
use eh_flow::{Observation, Phase};
use host_tags::{InFlight, Slots};
use port_ledger::Ledger;

/// What a recovery that stands here sees of its port. The time is at most 2^62.
pub fn observe(ledger: &Ledger, phase: &Phase) -> Observation
    ensures value { result ≡ observed ledger.now.head (past ledger.now) phase.now }
    ensures early { result.time.n ≤ 2 ^ 62 }
{
    Observation {
        time: ledger.clock(),
        asked: ledger.is_asked(),
        waiting: first_awaited(ledger.slots(), ledger.clock(), ledger.is_drained()),
        log: log_owed(ledger),
        frozen: ledger.is_frozen(),
        linked: is_linked(ledger, place_of(phase)),
        ready: ready_at(ledger, place_of(phase)),
        answered: has_answered(ledger, place_of(phase)),
    }
}

/// The place of a phase, where it has one.
fn place_of(phase: &Phase) -> Option<Place>
    ensures { result ≡ place_of phase.now }
{
    match *phase {
        Phase::ResetOwed { place, .. }
        | Phase::ResetOpen { place, .. }
        | Phase::IdentOwed { place, .. }
        | Phase::IdentOpen { place, .. } => Some(place),
        _ => None,
    }
}

/// The drive that is linked at a place, if it is one, lent.
fn drive_at_some(ledger: &Ledger, place: Option<Place>) -> Option<&Drive>
    ensures { option_map drive_of (option_copied result) ≡ drive_at_some ledger.now.head (past ledger.now) place }
{
    match place {
        Some(place) => ledger.drive(place),
        None => None,
    }
}

/// Whether a drive is linked at a place, if it is one.
fn is_linked(ledger: &Ledger, place: Option<Place>) -> bool
    ensures { result ≡ is_some (drive_at_some ledger.now.head (past ledger.now) place) }
{
    drive_at_some(ledger, place).is_some()
}

/// When the drive that is linked at a place is ready, 0 where none is.
fn ready_at(ledger: &Ledger, place: Option<Place>) -> Ms
    ensures { result ≡ ready_of (drive_at_some ledger.now.head (past ledger.now) place) }
{
    match drive_at_some(ledger, place) {
        Some(drive) => drive.ready_at(),
        None => Ms { n: 0 },
    }
}

/// Whether the linked drive of a place, if it is one, has answered who it is.
fn has_answered(ledger: &Ledger, place: Option<Place>) -> bool
    ensures { result ≡ has_answered ledger.now.head (past ledger.now) place }
{
    match place {
        Some(place) => ledger.drive(place).is_some() && ledger.is_ident_answered(place),
        None => false,
    }
}

/// The least tag that is neither owned nor due.
fn first_awaited(slots: &Slots, now: Ms, drained: bool) -> Option<Tag>
    ensures { result ≡ position (is_awaited now.n drained) slots.now }
{
    match awaited_at(slots.flights(), now, drained) {
        Some(at) => Some(Tag::at(at as u8)),
        None => None,
    }
}

/// Where the first of these issues is that is neither owned nor due.
fn awaited_at(flights: &[Option<InFlight>], now: Ms, drained: bool) -> Option<usize>
    ensures value { result ≡ position (is_awaited now.n drained) flights.now }
    ensures within { IfSome result (λ at. at < length flights.now) }
{
    flights
        .iter()
        .position(|slot| is_awaited(slot, now, drained))
}

/// Whether the issue in a slot is neither owned nor due.
fn is_awaited(slot: &Option<InFlight>, now: Ms, drained: bool) -> bool
    ensures { result ≡ is_awaited now.n drained slot.now }
{
    match slot {
        Some(flight) => !flight.owned && now.n < flight.deadline.n && !drained,
        None => false,
    }
}

/// The least place whose log is to be read; of a frozen port none.
fn log_owed(ledger: &Ledger) -> Option<Place>
    ensures { result ≡ log_owed ledger.now.head (past ledger.now) }
{
    if ledger.is_frozen() {
        None
    } else {
        first_log_owed(ledger)
    }
}

/// The least place whose log is to be read, be the port frozen or not.
#[tactic(auto, using(crate::proofs::FirstLemmas::found_here, crate::proofs::FirstLemmas::found_later))]
fn first_log_owed(ledger: &Ledger) -> Option<Place>
    ensures { result ≡
        find (is_log_owed (tferr_noted (past ledger.now)) (logs (past ledger.now)) (slots (past ledger.now))) (places_of ledger.now.head) }
{
    for at in 0..ledger.head().places {
        let place = Place::at(at);
        if is_log_owed(ledger, place) {
            return Some(place);
        }
    }
    None
}

/// Whether the log of a place is to be read: TFERR of it is noted, no reading of it was told, and a queued issue of it
/// is owned.
fn is_log_owed(ledger: &Ledger, place: Place) -> bool
    ensures { result ≡
        is_log_owed (tferr_noted (past ledger.now)) (logs (past ledger.now)) (slots (past ledger.now)) place }
{
    ledger.tferr_noted(place).is_some()
        && ledger.log(place).is_none()
        && has_owned_queued(ledger.slots(), place)
}

/// Whether a queued issue of a place is owned.
fn has_owned_queued(slots: &Slots, place: Place) -> bool
    ensures { result ≡ list_any (is_owned_queued_at place) slots.now }
{
    slots
        .flights()
        .iter()
        .any(|slot| is_owned_queued_at(slot, place))
}

/// Whether an owned queued issue of a place is in a slot.
fn is_owned_queued_at(slot: &Option<InFlight>, place: Place) -> bool
    ensures { result ≡ is_owned_queued_at place slot.now }
{
    match slot {
        Some(flight) => flight.place.get() == place.get() && flight.owned && flight.queued,
        None => false,
    }
}
