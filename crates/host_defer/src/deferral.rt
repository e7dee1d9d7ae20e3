ghost use Rattle.std.specs.Prelude.{◌≡◌, MatchResult};
ghost use Rattle.std.specs.List.{list_any};
ghost use Rattle.host_tags.specs.Slots.{free_below};
ghost use Rattle.host_defer.specs.Obstacles.{deferral_of, is_at, is_unqueued_at, is_elsewhere, is_link_busy, is_port_busy, has_no_tag, is_taken};

use crate::view::View;
use ata_base::{Deferral, Place, TAG_COUNT};

/// Whether a command of a place may be issued now, queued or not: `Ok` exactly where nothing defers it, else
/// the first of the reasons that hold, in the order of `Deferral`. A queued command's tag has to be below
/// `limit`, the depth of its device; an unqueued one may have any. Another place has the port on a
/// multiplier without FIS-based switching alone.
pub fn may_issue(view: &View, place: Place, queued: bool, limit: u8) -> Result<(), Deferral>
    ensures { MatchResult result
        (λ _. deferral_of view.now place queued limit ≡ None)
        (λ why. deferral_of view.now place queued limit ≡ Some why) }
{
    if view.frozen {
        return Err(Deferral::Frozen);
    }
    if view.recovering {
        return Err(Deferral::Recovering);
    }
    if is_link_busy(view, place, queued) {
        return Err(Deferral::LinkBusy);
    }
    if is_port_busy(view, place) {
        return Err(Deferral::PortBusy);
    }
    if has_no_tag(view, queued, limit) {
        return Err(Deferral::NoTag);
    }
    Ok(())
}

fn is_link_busy(view: &View, place: Place, queued: bool) -> bool
    ensures { result ≡ is_link_busy view.now.slots place queued }
{
    if queued {
        any_unqueued_at(&view.slots, place)
    } else {
        any_at(&view.slots, place)
    }
}

fn is_port_busy(view: &View, place: Place) -> bool
    ensures { result ≡ is_port_busy view.now place }
{
    view.pmp && !view.fbs && (any_elsewhere(&view.slots, place) || is_taken(view.exclusive, place))
}

fn has_no_tag(view: &View, queued: bool, limit: u8) -> bool
    ensures { result ≡ has_no_tag view.now.slots queued limit }
{
    let tags = if queued {
        usize::from(limit)
    } else {
        TAG_COUNT
    };
    first_free(&view.slots, tags).is_none()
}

fn any_at(slots: &[Option<(Place, bool)>], x: Place) -> bool
    ensures { result ≡ list_any (is_at x) slots.now }
{
    slots.iter().any(|slot| is_at(slot, x))
}

fn any_unqueued_at(slots: &[Option<(Place, bool)>], x: Place) -> bool
    ensures { result ≡ list_any (is_unqueued_at x) slots.now }
{
    slots.iter().any(|slot| is_unqueued_at(slot, x))
}

fn any_elsewhere(slots: &[Option<(Place, bool)>], x: Place) -> bool
    ensures { result ≡ list_any (is_elsewhere x) slots.now }
{
    slots.iter().any(|slot| is_elsewhere(slot, x))
}

/// The first of these slots that is free, among `tags` of them.
fn first_free(slots: &[Option<(Place, bool)>], tags: usize) -> Option<usize>
    ensures { result ≡ free_below tags slots.now }
{
    slots.iter().take(tags).position(|slot| slot.is_none())
}

/// Whether the issue in this slot is at place `x`.
fn is_at(slot: &Option<(Place, bool)>, x: Place) -> bool
    ensures { result ≡ is_at x slot.now }
{
    match slot {
        Some((place, _)) => place.get() == x.get(),
        None => false,
    }
}

/// Whether an unqueued issue at place `x` is in this slot.
fn is_unqueued_at(slot: &Option<(Place, bool)>, x: Place) -> bool
    ensures { result ≡ is_unqueued_at x slot.now }
{
    match slot {
        Some((place, queued)) => place.get() == x.get() && !*queued,
        None => false,
    }
}

/// Whether the issue in this slot is at another place than `x`.
fn is_elsewhere(slot: &Option<(Place, bool)>, x: Place) -> bool
    ensures { result ≡ is_elsewhere x slot.now }
{
    match slot {
        Some((place, _)) => place.get() != x.get(),
        None => false,
    }
}

/// Whether another place than `x` alone may issue.
fn is_taken(exclusive: Option<Place>, x: Place) -> bool
    ensures { result ≡ is_taken exclusive x }
{
    match exclusive {
        Some(place) => place.get() != x.get(),
        None => false,
    }
}
