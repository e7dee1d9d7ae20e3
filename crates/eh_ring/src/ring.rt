ghost use Rattle.std.specs.Prelude.{◌≡◌, ◌+◌, ◌-◌, ◌<◌, ◌≤◌, [], ◌∷◌, ◌++◌, length, take, map, reverse, slice_get, Some, IfOk};
ghost use Rattle.circular_buffer.specs.Buffer.{keep_last};
ghost use Rattle.eh_ring.specs.Bytes.{category_byte};

use crate::counts::Counts;
use crate::entry::RingEntry;
use crate::error_category::Category;
use crate::rule::category;
use ata_base::{Ms, OutOfMemory};
use ata_lanes::count_cats;
use circular_buffer::HeapCircularBuffer;
use std::alloc::Global;
use std::marker::Model;

/// The last 32 errors of a place since its device was attached, seen as the list of entries, the oldest first.
#[derive(Drop)]
pub struct Ring {
    entries: HeapCircularBuffer<RingEntry>,
}

impl Model for Ring {
    ghost use Rattle.std.specs.Prelude.{◌≡◌, ◌≤◌, List, length};
    ghost use Rattle.eh_ring.specs.declared.entry.RingEntry.{RingEntry};

    ghost Value = { List RingEntry };

    ghost view = { λ r. r.entries.items };

    ghost invariant = { λ r. (r.entries.capacity ≡ 32) × (length r.entries.items ≤ 32) };
}

impl Ring {
    ghost use Rattle.eh_ring.specs.Counts.{counts_in};
    ghost use Rattle.eh_ring.specs.Marks.{old_entry, with_clean_top, with_entry};
    ghost use Rattle.eh_ring.specs.Bytes.{IsSpread};

    /// An empty ring with room for 32 entries.
    pub fn new(alloc: Global) -> Result<Ring, OutOfMemory>
        ensures { IfOk result (λ ring. ring ≡ []) }
    {
        let entries = HeapCircularBuffer::with_capacity(alloc, 32)?;
        Ok(Ring { entries })
    }

    /// Notes an error. Of more than 32 the oldest is dropped.
    pub fn note(&mut self, e: RingEntry)
        ensures { self.new ≡ keep_last 32 (self.old ++ e ∷ []) }
    {
        self.entries.push_back(e);
    }

    /// Marks every entry old.
    pub fn mark_old(&mut self)
        ensures { self.new ≡ map old_entry self.old }
    {
        for entry in self.entries.make_contiguous() {
            entry.stale = true;
        }
    }

    /// Takes the dubious mark from the newest entry, if there is one.
    pub fn verify_top(&mut self)
        ensures { self.new ≡ with_clean_top self.old }
    {
        if let Some(mut entry) = self.entries.pop_back() {
            entry.dubious = false;
            self.entries.push_back(entry);
        }
    }

    /// Drops all entries.
    pub fn forget(&mut self)
        ensures { self.new ≡ [] }
    {
        self.entries.clear();
    }

    /// The counts in the window of the entries from the newest up to the first that is old or older than `since`.
    pub fn counts(&self, since: Ms) -> Counts
        ensures { result ≡ counts_in self.now since.n }
    {
        let (cats, times, n) = self.spread();
        let six = count_cats(&cats, &times, n, since.n);
        Counts {
            dbus: six[0],
            dtime: six[1],
            dunk: six[2],
            bus: six[3],
            time: six[4],
            unk: six[5],
        }
    }

    /// The counts in the window of the ring once it has an entry more, which the window begins with.
    pub fn counts_with(&self, e: &RingEntry, since: Ms) -> Counts
        ensures { result ≡ counts_in (with_entry e.now self.now) since.n }
    {
        let (cats, times, n) = self.spread_with(e);
        let six = count_cats(&cats, &times, n, since.n);
        Counts {
            dbus: six[0],
            dtime: six[1],
            dunk: six[2],
            bus: six[3],
            time: six[4],
            unk: six[5],
        }
    }

    // The category bytes and the times of an entry and of those that the ring keeps beside it, the newest first.
    fn spread_with(&self, e: &RingEntry) -> ([u8; 32], [u64; 32], usize)
        ensures { IsSpread (with_entry e.now self.now) result.0 result.1 result.2 }
    {
        let mut cats = [0; 32];
        let mut times = [0; 32];
        cats[0] = byte(e);
        times[0] = e.at.n;
        let n = self.entries.len().min(31);
        for i in 0..n {
            let entry = self.nth_newest(i);
            cats[i + 1] = byte(&entry);
            times[i + 1] = entry.at.n;
        }
        (cats, times, n + 1)
    }

    // The category bytes and the times of the entries, the newest first.
    fn spread(&self) -> ([u8; 32], [u64; 32], usize)
        ensures { IsSpread self.now result.0 result.1 result.2 }
    {
        let mut cats = [0; 32];
        let mut times = [0; 32];
        let n = self.entries.len();
        for i in 0..n {
            let entry = self.nth_newest(i);
            cats[i] = byte(&entry);
            times[i] = entry.at.n;
        }
        (cats, times, n)
    }

    fn nth_newest(&self, i: usize) -> RingEntry
        requires { i < length self.now }
        ensures { Some result ≡ slice_get self.now (length self.now - i - 1) }
    {
        *self.entries.nth_back(i).unwrap()
    }
}

fn byte(entry: &RingEntry) -> u8
    ensures { result ≡ category_byte entry.now }
{
    let code = match category(entry.io, entry.kinds) {
        Category::Nil => 0,
        Category::Bus => 1,
        Category::Timeout => 2,
        Category::Unknown => 3,
    };
    let dubious = if entry.dubious { 4 } else { 0 };
    let old = if entry.stale { 8 } else { 0 };
    code + dubious + old
}
