ghost use Rattle.std.specs.Prelude.{◌≡◌, ◌<◌, true, length, IfSome, IfNone, if◌then◌else◌};
ghost use Rattle.host_tags.specs.Marks.{condemned, expired};
ghost use Rattle.host_tags.specs.Numbers.{is_issue, without, changed_by_number, IsFresh, AreApart};
ghost use Rattle.host_tags.specs.Slots.{flight_at, lowest_free, no_flights, put};

use ata_base::{IssueNo, Kinds, TAG_COUNT, Tag};
use host_tags::{InFlight, Slots};
use std::marker::Model;

/// How many hints there are.
const HINTS: usize = 64;

/// What is in flight under each tag of a port; no two issues in flight have the same number.
/// A contract sees it as the list of 32 options by tag, None where the tag is free.
///
/// Beside the slots stands a hint for each rest of a number by 64: the tag that such an issue was put under last. So an
/// issue is found by its number at once, and where the hint is of another one by going over all.
#[derive(Drop)]
pub struct Flights {
    slots: Slots,
    hints: [Tag; HINTS],
}

impl Model for Flights {
    ghost use Rattle.std.specs.Prelude.{List, Option};
    ghost use Rattle.host_tags.specs.declared.in_flight.InFlight.{InFlight};
    ghost use Rattle.host_tags.specs.Numbers.{AreApart};

    ghost Value = { List (Option InFlight) };

    ghost view = { λ f. f.slots };

    ghost invariant = { λ f. AreApart f.slots };
}

impl Flights {
    /// All tags are free.
    #[tactic(auto, using(crate::proofs::FlightLemmas::apart_none))]
    pub fn new() -> Flights
        ensures { result ≡ no_flights }
    {
        Flights {
            slots: Slots::new(),
            hints: [Tag::at(0); HINTS],
        }
    }

    /// The issues in flight, lent.
    pub fn slots(&self) -> &Slots
        ensures value { result.now ≡ self.now }
        ensures apart { AreApart self.now }
    {
        &self.slots
    }

    /// What is under the tag, lent.
    pub fn at(&self, tag: Tag) -> &Option<InFlight>
        ensures flight { result.now ≡ flight_at self.now tag }
        ensures size { length self.now ≡ 32 }
        ensures apart { AreApart self.now }
    {
        self.slots.at(tag)
    }

    /// The lowest free tag, None exactly where all are busy.
    #[tactic(auto, using(crate::proofs::FlightLemmas::all_free))]
    pub fn lowest_free(&self) -> Option<Tag>
        ensures { result ≡ lowest_free self.now }
    {
        let _flights = self.slots.flights();
        self.slots.free_below(TAG_COUNT as u8)
    }

    /// Puts an issue under the tag, whatever was there. No issue in flight has its number.
    #[tactic(auto, using(host_tags::proofs::NumberLemmas::apart_put))]
    pub fn put(&mut self, tag: Tag, flight: InFlight)
        requires { IsFresh flight.number.n self.old }
        ensures { self.new ≡ put tag flight self.old }
    {
        self.hints[(flight.number.n % 64) as usize] = tag;
        self.slots.put(tag, flight);
    }

    /// The tag of the issue of this number, None exactly where no issue in flight has it.
    pub fn tag_of(&self, number: IssueNo) -> Option<Tag>
        ensures found { IfSome result (λ tag. is_issue number.n (flight_at self.now tag) ≡ true) }
        ensures none { IfNone result (IsFresh number.n self.now) }
        ensures size { length self.now ≡ 32 }
        ensures apart { AreApart self.now }
    {
        let hint = self.hints[(number.n % 64) as usize];
        if is_issue(self.slots.at(hint), number) {
            return Some(hint);
        }
        find_issue(&self.slots, number)
    }

    /// The issue of this number, if it is in flight, leaves its tag.
    #[tactic(auto, using(crate::proofs::FlightLemmas::without_found, crate::proofs::FlightLemmas::busy_found, host_tags::proofs::NumberLemmas::without_fresh, host_tags::proofs::NumberLemmas::apart_released))]
    pub fn release_issue(&mut self, number: IssueNo)
        ensures { self.new ≡ without number.n self.old }
    {
        if let Some(tag) = self.tag_of(number) {
            let _ = self.slots.release(tag);
        }
    }

    /// The issue of this number, if it is in flight, is given to recovery with these kinds of error.
    #[tactic(auto, using(crate::proofs::FlightLemmas::condemned_found, host_tags::proofs::NumberLemmas::changed_fresh, crate::proofs::FlightLemmas::condemned_apart))]
    pub fn condemn_issue(&mut self, number: IssueNo, kinds: Kinds)
        ensures { self.new ≡ changed_by_number (condemned kinds) number.n self.old }
    {
        if let Some(tag) = self.tag_of(number) {
            if let Some(flight) = self.slots.get(tag) {
                self.slots.put(tag, condemned(flight, kinds));
            }
        }
    }

    /// The timer has told of the issue of this number, if it is in flight.
    #[tactic(auto, using(crate::proofs::FlightLemmas::changed_found, host_tags::proofs::NumberLemmas::changed_fresh, crate::proofs::FlightLemmas::expired_apart))]
    pub fn expire_issue(&mut self, number: IssueNo)
        ensures { self.new ≡ changed_by_number expired number.n self.old }
    {
        if let Some(tag) = self.tag_of(number) {
            self.slots.expire_mark(tag);
        }
    }
}

/// The tag of the issue of this number, found by going over all 32.
#[tactic(auto, using(crate::proofs::FlightLemmas::fresh_from, crate::proofs::FlightLemmas::fresh_past))]
fn find_issue(slots: &Slots, number: IssueNo) -> Option<Tag>
    ensures found { IfSome result (λ tag. is_issue number.n (flight_at slots.now tag) ≡ true) }
    ensures none { IfNone result (IsFresh number.n slots.now) }
{
    for at in 0..TAG_COUNT as u8 {
        let tag = Tag::at(at);
        if is_issue(slots.at(tag), number) {
            return Some(tag);
        }
    }
    None
}

/// Whether the issue of this number is in a slot.
fn is_issue(slot: &Option<InFlight>, number: IssueNo) -> bool
    ensures { result ≡ is_issue number.n slot.now }
{
    match slot {
        Some(f) => f.number.n == number.n,
        None => false,
    }
}

/// An issue that recovery owns from now on, with these kinds of error.
fn condemned(flight: InFlight, kinds: Kinds) -> InFlight
    ensures { result ≡ condemned kinds flight }
{
    let mut it = flight;
    it.owned = true;
    it.kinds = kinds;
    it
}
