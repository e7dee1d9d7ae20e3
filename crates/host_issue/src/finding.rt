ghost use Rattle.std.specs.Prelude.{◌≡◌};
ghost use Rattle.host_issue.specs.Finding.{IsLeastTag, is_answerable, is_awaited, waiting_of};

use ata_base::{Ms, Tag};
use hba_model::Hba;
use host_tags::{InFlight, Slots};

/// The least tag that is done and whose issue in flight recovery doesn't own: the one that is answered next. `None`
/// exactly where there is no such tag.
pub fn next_done(slots: &Slots, hba: &Hba) -> Option<Tag>
    ensures { IsLeastTag (is_answerable slots.now hba.now.tags) result }
{
    let answerable = slots.busy() & !slots.owned() & hba.done();
    if answerable == 0 {
        None
    } else {
        Some(Tag::at(answerable.trailing_zeros() as u8))
    }
}

/// The least tag for whose issue recovery waits at the time `now`: it is in flight, not owned, and not due. On a port
/// that is `drained`, has given up waiting, each one is due. `None` exactly where there is no such tag.
pub fn next_waiting(slots: &Slots, now: Ms, drained: bool) -> Option<Tag>
    ensures { result ≡ waiting_of now.n drained slots.now }
{
    match first_awaited(slots.flights(), now, drained) {
        Some(at) => Some(Tag::at(at as u8)),
        None => None,
    }
}

/// The first of these slots for whose issue recovery waits.
fn first_awaited(slots: &[Option<InFlight>], now: Ms, drained: bool) -> Option<usize>
    ensures { result ≡ waiting_of now.n drained slots.now }
{
    slots.iter().position(|slot| is_awaited(slot, now, drained))
}

/// Whether recovery waits for the issue in a slot.
fn is_awaited(slot: &Option<InFlight>, now: Ms, drained: bool) -> bool
    ensures { result ≡ is_awaited now.n drained slot.now }
{
    match slot {
        Some(f) => !f.owned && f.deadline.n > now.n && !drained,
        None => false,
    }
}
