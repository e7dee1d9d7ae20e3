ghost use Rattle.std.specs.Prelude.{◌≡◌, ℕ, ◌↔◌, Bool, false, List, Option, length, slice_set, IsTrue, IsBitSet, IfSome, IfNone, map, option_map};
ghost use Rattle.ata_base.specs.Masks.{mask_of};
ghost use Rattle.host_tags.specs.Numbers.{is_issue, left, without};

use crate::in_flight::InFlight;
use ata_base::{IssueNo, Kinds, Place, TAG_COUNT, Tag};
use std::marker::Model;

/// What is in flight under each tag of a port.
/// A contract sees it as the list of 32 options by tag, None where the tag is free.
#[derive(Clone, Copy, Debug, PartialEq, Eq)]
pub struct Slots {
    flights: [Option<InFlight>; TAG_COUNT],
    busy: u32,
    owned: u32,
    queued: u32,
}

impl Model for Slots {
    ghost use Rattle.std.specs.Prelude.{List, Option};
    ghost use Rattle.host_tags.specs.declared.in_flight.InFlight.{InFlight};
    ghost use Rattle.host_tags.specs.Slots.{busy_mask, owned_mask, queued_mask};
    ghost use Rattle.host_tags.specs.Masks.{AreMasks};

    ghost Value = { List (Option InFlight) };

    ghost view = { λ s. s.flights };

    ghost invariant = { λ s. AreMasks s.flights s.busy s.owned s.queued };

    ghost inverse = { λ slots. record {
      flights = slots;
      busy = busy_mask slots;
      owned = owned_mask slots;
      queued = queued_mask slots;
    } };

    ghost inverse_ok = { λ s h i. record {
      flights = s.flights;
      busy = h.of_busy i;
      owned = h.of_owned i;
      queued = h.of_queued i;
    } };
}

impl Slots {
    ghost use Rattle.host_tags.specs.Slots.{no_flights, flight_at, is_busy, is_owned, is_queued, free_below, busy_mask, owned_mask, queued_mask, put, released, marked};
    ghost use Rattle.host_tags.specs.Marks.{condemned, expired};

    /// All tags are free.
    pub fn new() -> Slots
        ensures { result ≡ no_flights }
    {
        Slots {
            flights: [None; TAG_COUNT],
            busy: 0,
            owned: 0,
            queued: 0,
        }
    }

    /// Puts an issue under the lowest free tag below `limit`, which is answered. None exactly where no
    /// tag below `limit` is free; then nothing changes.
    pub fn claim(&mut self, limit: u8, flight: InFlight) -> Option<Tag>
        ensures found { result ≡ free_below limit self.old }
        ensures put { IfSome result (λ tag. self.new ≡ put tag flight self.old) }
        ensures none { IfNone result (self.new ≡ self.old) }
    {
        let tag = self.free_below(limit)?;
        self.put(tag, flight);
        Some(tag)
    }

    /// Puts an issue under the tag, whatever was there.
    pub fn put(&mut self, tag: Tag, flight: InFlight)
        ensures { self.new ≡ put tag flight self.old }
    {
        let (owned, queued) = (flight.owned, flight.queued);
        self.flights[tag.get() as usize] = Some(flight);
        self.busy = with_bit(self.busy, tag, true);
        self.owned = with_bit(self.owned, tag, owned);
        self.queued = with_bit(self.queued, tag, queued);
    }

    /// The lowest free tag below `limit`, None exactly where no tag below `limit` is free.
    pub fn free_below(&self, limit: u8) -> Option<Tag>
        ensures { result ≡ free_below limit self.now }
    {
        let at = self.busy.trailing_ones() as u8;
        if at < limit && at < TAG_COUNT as u8 {
            Some(Tag::at(at))
        } else {
            None
        }
    }

    /// The issue in flight under the tag, None exactly where the tag is free.
    pub fn get(&self, tag: Tag) -> Option<InFlight>
        ensures flight { result ≡ flight_at self.now tag }
        ensures slots { length self.now ≡ 32 }
    {
        self.flights[tag.get() as usize]
    }

    /// What is under the tag, lent.
    pub fn at(&self, tag: Tag) -> &Option<InFlight>
        ensures flight { result.now ≡ flight_at self.now tag }
        ensures slots { length self.now ≡ 32 }
    {
        &self.flights[tag.get() as usize]
    }

    /// What is under each tag in order, lent.
    pub fn flights(&self) -> &[Option<InFlight>]
        ensures flights { result.now ≡ self.now }
        ensures slots { length self.now ≡ 32 }
    {
        &self.flights
    }

    /// Gives the issue under the tag to recovery, with these kinds of error.
    pub fn condemn(&mut self, tag: Tag, kinds: Kinds)
        requires busy { IsTrue (is_busy self.old tag) }
        requires unowned { is_owned self.old tag ≡ false }
        ensures { self.new ≡ marked (condemned kinds) tag self.old }
    {
        if let Some(mut f) = self.get(tag) {
            f.owned = true;
            f.kinds = kinds;
            self.put(tag, f);
        }
    }

    /// Notes that the timer has told of the issue under the tag. A free tag stays free.
    pub fn expire_mark(&mut self, tag: Tag)
        ensures { self.new ≡ marked expired tag self.old }
    {
        if let Some(mut f) = self.get(tag) {
            f.expired = true;
            self.put(tag, f);
        }
    }

    /// Frees the tag, and answers the issue that was in flight under it.
    pub fn release(&mut self, tag: Tag) -> InFlight
        requires { IsTrue (is_busy self.old tag) }
        ensures flight { flight_at self.old tag ≡ Some result }
        ensures free { self.new ≡ released tag self.old }
    {
        let at = tag.get() as usize;
        let flight = self.flights[at];
        self.flights[at] = None;
        self.busy = with_bit(self.busy, tag, false);
        self.owned = with_bit(self.owned, tag, false);
        self.queued = with_bit(self.queued, tag, false);
        flight.unwrap()
    }

    /// For each tag the place of its issue and whether it is queued, None where the tag is free.
    pub fn outline(&self) -> [Option<(Place, bool)>; TAG_COUNT]
        ensures { result ≡ map (option_map (λ f. (f.place, f.queued))) self.now }
    {
        let mut outline = [None; TAG_COUNT];
        for tag in 0..TAG_COUNT {
            draw(&mut outline[tag], &self.flights[tag]);
        }
        outline
    }

    /// The issue of this number, if it is in flight, leaves its tag.
    pub fn release_issue(&mut self, number: IssueNo)
        ensures { self.new ≡ without number.n self.old }
    {
        let _ = &self.flights;
        for tag in 0..TAG_COUNT as u8 {
            self.leave(Tag::at(tag), number);
        }
    }

    /// The issue of this number leaves the tag, if it is under it.
    fn leave(&mut self, tag: Tag, number: IssueNo)
        ensures slots { self.new ≡ slice_set self.old tag (left number.n (flight_at self.old tag)) }
        ensures size { length self.old ≡ 32 }
    {
        if is_issue(self.at(tag), number) {
            let _ = self.release(tag);
        }
    }

    /// The tags that are busy: bit t stands for tag t.
    pub fn busy(&self) -> u32
        ensures value { result ≡ busy_mask self.now }
        ensures bits { (t : ℕ) → IsBitSet result t ↔ IsTrue (is_busy self.now t) }
    {
        self.busy
    }

    /// The tags whose issues are owned by recovery: bit t stands for tag t.
    pub fn owned(&self) -> u32
        ensures value { result ≡ owned_mask self.now }
        ensures bits { (t : ℕ) → IsBitSet result t ↔ IsTrue (is_owned self.now t) }
    {
        self.owned
    }

    /// The tags whose issues are queued: bit t stands for tag t.
    pub fn queued(&self) -> u32
        ensures value { result ≡ queued_mask self.now }
        ensures bits { (t : ℕ) → IsBitSet result t ↔ IsTrue (is_queued self.now t) }
    {
        self.queued
    }
}

/// A mask of slots by a test, once a slot stands under the tag of which the test is told.
fn with_bit(mask: u32, tag: Tag, passes: bool) -> u32
    ensures { (test : Option InFlight → Bool) (slots : List (Option InFlight)) (slot : Option InFlight)
        → length slots ≡ 32 → mask_of test slots ≡ mask → test slot ≡ passes
        → mask_of test (slice_set slots tag slot) ≡ result }
{
    let bit = 1 << tag.get();
    if passes { mask | bit } else { mask & !bit }
}

/// Whether the issue of this number is in a slot.
fn is_issue(slot: &Option<InFlight>, number: IssueNo) -> bool
    ensures { result ≡ is_issue number.n slot.now }
{
    match slot {
        Some(f) => f.number.n == number.n,
        None => false,
    }
}

/// Draws a slot: the place of its issue and whether it is queued.
fn draw(drawn: &mut Option<(Place, bool)>, slot: &Option<InFlight>)
    requires { drawn.old ≡ None }
    ensures { drawn.new ≡ option_map (λ f. (f.place, f.queued)) slot.now }
{
    if let Some(f) = slot {
        *drawn = Some((f.place, f.queued));
    }
}
