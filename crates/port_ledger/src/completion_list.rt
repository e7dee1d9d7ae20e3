ghost use Rattle.std.specs.Prelude.{◌≡◌, ◌<◌, ◌≤◌, None, slice_set, length, IfOk, take, if◌then◌else◌};
ghost use Rattle.std.specs.Option.{option_copied};
ghost use Rattle.host_tags.specs.Numbers.{is_issue};
ghost use Rattle.host_tags.specs.Slots.{flight_at, is_flight_at};
ghost use Rattle.port_past.specs.ByTag.{set_where, under_no_tag};
ghost use Rattle.port_ledger.specs.Parts.{completion_at};

use crate::flights::Flights;
use ata_base::{IssueNo, OutOfMemory, Place, TAG_COUNT, Tag};
use host_tags::InFlight;
use port_past::Completion;
use std::alloc::Global;
use std::marker::Model;

/// The good ends of the issues in flight, by tag.
#[derive(Drop)]
pub struct CompletionList {
    list: Vec<Option<Completion>>,
}

impl Model for CompletionList {
    ghost use Rattle.std.specs.Prelude.{◌≡◌, List, Option, length};
    ghost use Rattle.port_past.specs.declared.completion.Completion.{Completion};

    ghost Value = { List (Option Completion) };

    ghost view = { λ c. c.list.items };

    ghost invariant = { λ c. length c.list.items ≡ 32 };
}

impl CompletionList {
    /// No issue is completed.
    pub fn new(alloc: Global) -> Result<CompletionList, OutOfMemory>
        ensures { IfOk result (λ c. c ≡ under_no_tag) }
    {
        let mut list = Vec::with_capacity(alloc, TAG_COUNT)?;
        for at in 0..TAG_COUNT {
            let _ = at;
            list.push_reserved(None);
        }
        Ok(CompletionList { list })
    }

    /// The good end of the issue under a tag, lent.
    pub fn get(&self, tag: Tag) -> Option<&Completion>
        ensures value { option_copied result ≡ completion_at self.now tag }
        ensures size { length self.now ≡ 32 }
    {
        self.list[tag.get() as usize].as_ref()
    }

    /// Sets what stands under a tag.
    pub fn set(&mut self, tag: Tag, completion: Option<Completion>)
        ensures list { self.new ≡ slice_set self.old tag completion }
        ensures size { length self.new ≡ 32 }
    {
        self.list[tag.get() as usize] = completion;
    }

    /// Sets what stands under the tag of the issue of this number, where it is in flight.
    #[tactic(auto, using(crate::proofs::ListLemmas::where_found, crate::proofs::ListLemmas::where_fresh))]
    pub fn set_issue(&mut self, flights: &Flights, number: IssueNo, completion: Option<Completion>)
        ensures { self.new ≡ set_where (is_issue number.n) completion flights.now self.old }
    {
        if let Some(tag) = flights.tag_of(number) {
            self.set(tag, completion);
        }
    }

    /// The completions of the issues at a place go.
    #[tactic(auto, using(crate::proofs::ListLemmas::where_more, crate::proofs::ListLemmas::where_nothing))]
    pub fn leave_place(&mut self, flights: &Flights, place: Place)
        ensures { self.new ≡ set_where (is_flight_at place) None flights.now self.old }
    {
        for at in 0..TAG_COUNT as u8 {
            self.leave_tag(flights, place, at);
        }
    }

    /// The completion of the issue under a tag goes, where the issue is at a place.
    #[tactic(auto, using(crate::proofs::ListLemmas::where_more))]
    fn leave_tag(&mut self, flights: &Flights, place: Place, at: u8)
        requires { at < 32 }
        ensures list { self.new ≡ (if is_flight_at place (flight_at flights.now at) then slice_set self.old at None else self.old) }
        ensures size { length flights.now ≡ 32 }
    {
        let tag = Tag::at(at);
        if is_flight_at(place, flights.at(tag)) {
            self.set(tag, None);
        }
    }

    /// All completions go.
    pub fn clear(&mut self)
        ensures { self.new ≡ under_no_tag }
    {
        let _ = &self.list;
        for at in 0..TAG_COUNT as u8 {
            self.set(Tag::at(at), None);
        }
    }
}

/// Whether the issue in a slot is at a place.
fn is_flight_at(place: Place, slot: &Option<InFlight>) -> bool
    ensures { result ≡ is_flight_at place slot.now }
{
    match slot {
        Some(f) => f.place.get() == place.get(),
        None => false,
    }
}
