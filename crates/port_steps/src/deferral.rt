ghost use Rattle.std.specs.Prelude.{◌≡◌, None, Some, IfErr, IfOk, is_none, option_map};
ghost use Rattle.std.specs.List.{list_any};
ghost use Rattle.host_defer.specs.Obstacles.{deferral_of, has_no_tag, is_at, is_elsewhere, is_link_busy, is_port_busy, is_taken, is_unqueued_at};
ghost use Rattle.host_tags.specs.Slots.{free_below};
ghost use Rattle.port_ledger.specs.LedgerView.{past};
ghost use Rattle.port_past.specs.Identities.{depth_at};
ghost use Rattle.port_past.specs.Slots.{slots};
ghost use Rattle.port_rules.specs.Kick.{outline, place_and_queuing, tag_limit, view_of};

use ata_base::{Deferral, Place, TAG_COUNT, Tag};
use host_tags::{InFlight, Slots};
use port_ledger::Ledger;

/// The tag under which a command of a place may be issued now, queued or not: the lowest free one, for a queued command
/// below the depth of its device. Where a reason to defer it holds, the first of them.
pub fn may_issue(ledger: &Ledger, place: Place, queued: bool) -> Result<Tag, Deferral>
    ensures tag { IfOk result (λ tag. free_below (tag_limit (past ledger.now) place queued) (slots (past ledger.now)) ≡ Some tag) }
    ensures free { IfOk result (λ _.
        deferral_of (view_of ledger.now.head (past ledger.now)) place queued (depth_at (past ledger.now) place) ≡ None) }
    ensures why { IfErr result (λ why.
        deferral_of (view_of ledger.now.head (past ledger.now)) place queued (depth_at (past ledger.now) place) ≡ Some why) }
{
    if ledger.is_frozen() {
        return Err(Deferral::Frozen);
    }
    if ledger.is_recovering() {
        return Err(Deferral::Recovering);
    }
    if is_link_busy(ledger.slots(), place, queued) {
        return Err(Deferral::LinkBusy);
    }
    if is_port_busy(ledger, place) {
        return Err(Deferral::PortBusy);
    }
    match free_tag(ledger, place, queued) {
        Some(tag) => Ok(tag),
        None => Err(Deferral::NoTag),
    }
}

/// Whether issues in flight at a place keep a command waiting: for a queued one an unqueued issue, for an unqueued one
/// any.
fn is_link_busy(slots: &Slots, place: Place, queued: bool) -> bool
    ensures { result ≡ is_link_busy (outline slots.now) place queued }
{
    if queued {
        any_unqueued_at(slots, place)
    } else {
        any_at(slots, place)
    }
}

/// Whether another place has the port: on a multiplier without FIS-based switching one that an issue is in flight at, or
/// that alone may issue.
fn is_port_busy(ledger: &Ledger, place: Place) -> bool
    ensures { result ≡ is_port_busy (view_of ledger.now.head (past ledger.now)) place }
{
    let head = ledger.head();
    head.pmp
        && !head.fbs
        && (any_elsewhere(ledger.slots(), place) || is_taken(ledger.exclusive(), place))
}

/// The lowest free tag, for a queued command below the depth of its device.
#[tactic(auto, using(crate::proofs::OutlineLemmas::free_outlined))]
fn free_tag(ledger: &Ledger, place: Place, queued: bool) -> Option<Tag>
    ensures tag { result ≡ free_below (tag_limit (past ledger.now) place queued) (slots (past ledger.now)) }
    ensures none { is_none result ≡ has_no_tag (outline (slots (past ledger.now))) queued (depth_at (past ledger.now) place) }
{
    let limit = if queued {
        ledger.depth(place)
    } else {
        TAG_COUNT as u8
    };
    ledger.free_below(limit)
}

/// Whether an issue in flight is at place `x`; none is where no tag is busy.
fn any_at(slots: &Slots, x: Place) -> bool
    ensures { result ≡ list_any (is_at x) (outline slots.now) }
{
    if slots.busy() == 0 {
        return false;
    }
    any_flight_at(slots.flights(), x)
}

/// The same, by a walk over the slots.
fn any_flight_at(flights: &[Option<InFlight>], x: Place) -> bool
    ensures { result ≡ list_any (is_at x) (outline flights.now) }
{
    flights.iter().any(|slot| is_at(slot, x))
}

/// Whether an unqueued issue is at place `x`; none is where each busy tag is a queued one's.
fn any_unqueued_at(slots: &Slots, x: Place) -> bool
    ensures { result ≡ list_any (is_unqueued_at x) (outline slots.now) }
{
    if slots.busy() == slots.queued() {
        return false;
    }
    any_unqueued_flight_at(slots.flights(), x)
}

/// The same, by a walk over the slots.
fn any_unqueued_flight_at(flights: &[Option<InFlight>], x: Place) -> bool
    ensures { result ≡ list_any (is_unqueued_at x) (outline flights.now) }
{
    flights.iter().any(|slot| is_unqueued_at(slot, x))
}

/// Whether an issue in flight is at another place than `x`; none is where no tag is busy.
fn any_elsewhere(slots: &Slots, x: Place) -> bool
    ensures { result ≡ list_any (is_elsewhere x) (outline slots.now) }
{
    if slots.busy() == 0 {
        return false;
    }
    any_flight_elsewhere(slots.flights(), x)
}

/// The same, by a walk over the slots.
fn any_flight_elsewhere(flights: &[Option<InFlight>], x: Place) -> bool
    ensures { result ≡ list_any (is_elsewhere x) (outline flights.now) }
{
    flights.iter().any(|slot| is_elsewhere(slot, x))
}

/// Whether the issue in a slot is at place `x`.
fn is_at(slot: &Option<InFlight>, x: Place) -> bool
    ensures { result ≡ is_at x (option_map place_and_queuing slot.now) }
{
    match slot {
        Some(flight) => flight.place.get() == x.get(),
        None => false,
    }
}

/// Whether an unqueued issue at place `x` is in a slot.
fn is_unqueued_at(slot: &Option<InFlight>, x: Place) -> bool
    ensures { result ≡ is_unqueued_at x (option_map place_and_queuing slot.now) }
{
    match slot {
        Some(flight) => flight.place.get() == x.get() && !flight.queued,
        None => false,
    }
}

/// Whether the issue in a slot is at another place than `x`.
fn is_elsewhere(slot: &Option<InFlight>, x: Place) -> bool
    ensures { result ≡ is_elsewhere x (option_map place_and_queuing slot.now) }
{
    match slot {
        Some(flight) => flight.place.get() != x.get(),
        None => false,
    }
}

/// Whether another place than `x` alone may issue.
fn is_taken(exclusive: Option<Place>, x: Place) -> bool
    ensures { result ≡ is_taken exclusive x }
{
    match exclusive {
        Some(place) => place.get() != x.get(),
        None => false,
    }
}
