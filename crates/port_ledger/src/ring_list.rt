ghost use Rattle.std.specs.Prelude.{◌≡◌, IfOk, slice_index_or};
ghost use Rattle.ata_trace.specs.Event.Event.{Told};
ghost use Rattle.port_past.specs.Places.{everywhere};
ghost use Rattle.port_past.specs.Rings.{no_entries, rings_after};

use ata_base::{MOST_PLACES, Ms, OutOfMemory, Place};
use ata_trace::Act;
use eh_ring::{Ring, RingEntry};
use std::alloc::Global;
use std::marker::Model;

/// The error rings by place.
#[derive(Drop)]
pub struct RingList {
    list: Vec<Ring>,
}

impl Model for RingList {
    ghost use Rattle.std.specs.Prelude.{◌≡◌, List, length};
    ghost use Rattle.eh_ring.specs.declared.entry.RingEntry.{RingEntry};

    ghost Value = { List (List RingEntry) };

    ghost view = { λ r. r.list.items };

    ghost invariant = { λ r. length r.list.items ≡ 15 };
}

impl RingList {
    /// No error is recorded.
    pub fn new(alloc: Global) -> Result<RingList, OutOfMemory>
        ensures { IfOk result (λ r. r ≡ everywhere no_entries) }
    {
        let mut list = Vec::with_capacity(alloc, MOST_PLACES)?;
        for at in 0..MOST_PLACES {
            let _ = at;
            list.push_reserved(Ring::new(alloc)?);
        }
        Ok(RingList { list })
    }

    /// The ring of a place, lent.
    pub fn get(&self, place: Place) -> &Ring
        ensures { result.now ≡ slice_index_or self.now place no_entries }
    {
        &self.list[place.get() as usize]
    }

    /// The rings after an act, at a time by the clock, where the devices of these places are dubious.
    #[tactic(auto, using(crate::proofs::RingLemmas::changed_ring, crate::proofs::RingLemmas::keeps_last))]
    pub fn note(&mut self, act: &Act, clock: u64, dubious: &[bool; MOST_PLACES])
        ensures { self.new ≡ rings_after (Told act.now) clock dubious.now self.old }
    {
        match act {
            Act::Recorded {
                place,
                io,
                dubious,
                kinds,
                ..
            } => self.list[place.get() as usize].note(RingEntry {
                io: *io,
                dubious: *dubious,
                stale: false,
                kinds: *kinds,
                at: Ms { n: clock },
            }),
            Act::Attached { place } => self.list[place.get() as usize].forget(),
            Act::Cleared { place } => self.list[place.get() as usize].mark_old(),
            Act::Mode { place, .. } => {
                if !dubious[place.get() as usize] {
                    self.list[place.get() as usize].verify_top();
                }
            }
            _ => {}
        }
    }
}
