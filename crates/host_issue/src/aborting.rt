ghost use Rattle.std.specs.Prelude.{◌≡◌, None, Some, length, slice_set};
ghost use Rattle.ata_base.specs.Masks.{mask_of};
ghost use Rattle.host_issue.specs.Aborting.{aborted, aborted_slot, is_abortable, is_at};
ghost use Rattle.host_tags.specs.Slots.{flight_at};

use ata_base::{Kinds, Place, TAG_COUNT, Tag, mask_of};
use host_tags::{InFlight, Slots};

/// Gives each issue in flight that recovery doesn't own to it, without kinds of error. Answers their tags: bit t stands
/// for tag t.
pub fn abort_all(slots: &mut Slots) -> u32
    ensures slots { slots.new ≡ aborted None slots.old }
    ensures tags { result ≡ mask_of (is_abortable None) slots.old }
{
    abort(slots, None)
}

/// Gives each issue in flight at a place that recovery doesn't own to it, without kinds of error; those of other places
/// stay. Answers their tags: bit t stands for tag t.
pub fn abort_link(slots: &mut Slots, place: Place) -> u32
    ensures slots { slots.new ≡ aborted (Some place) slots.old }
    ensures tags { result ≡ mask_of (is_abortable (Some place)) slots.old }
{
    abort(slots, Some(place))
}

/// Gives each issue that recovery doesn't own to it, those of one place or with None of all.
fn abort(slots: &mut Slots, place: Option<Place>) -> u32
    ensures slots { slots.new ≡ aborted place slots.old }
    ensures tags { result ≡ mask_of (is_abortable place) slots.old }
{
    let tags = mask_of(slots.flights(), |slot| is_abortable(slot, &place));
    for number in 0..TAG_COUNT as u8 {
        abort_at(slots, Tag::at(number), &place);
    }
    tags
}

/// Gives the issue under a tag to recovery, where it is one that recovery doesn't own, of the place or with None of any.
fn abort_at(slots: &mut Slots, tag: Tag, place: &Option<Place>)
    ensures slots { slots.new ≡ slice_set slots.old tag (aborted_slot place.now (flight_at slots.old tag)) }
    ensures size { length slots.old ≡ 32 }
{
    if is_abortable(slots.at(tag), place) {
        slots.condemn(tag, Kinds::none());
    }
}

/// Whether an issue that recovery doesn't own is in a slot: one of a place, or with None of any place.
fn is_abortable(slot: &Option<InFlight>, place: &Option<Place>) -> bool
    ensures { result ≡ is_abortable place.now slot.now }
{
    match slot {
        Some(f) => !f.owned && is_at(f, place),
        None => false,
    }
}

/// Whether an issue is at a place, or the place is None.
fn is_at(flight: &InFlight, place: &Option<Place>) -> bool
    ensures { result ≡ is_at place.now flight.now }
{
    match place {
        Some(place) => flight.place == *place,
        None => true,
    }
}
