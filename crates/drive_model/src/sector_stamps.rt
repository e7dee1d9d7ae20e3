ghost use Rattle.std.specs.Prelude.{◌≡◌, ◌-◌, ◌<◌, ◌≤◌, ◌++◌, length, replicate, slice_index, slice_set, IfOk};
ghost use Rattle.std.specs.Vec.{vec_capacity};

use ata_base::OutOfMemory;
use std::alloc::Global;
use std::marker::Model;

/// A stamp for each of so many sectors, by number. Only those up to the last sector that was written are kept, each
/// other one is 0; there is memory for all of them from the start.
#[derive(Drop)]
pub struct SectorStamps {
    kept: Vec<u64>,
    count: usize,
}

impl Model for SectorStamps {
    ghost use Rattle.std.specs.Prelude.{ℕ, ◌≤◌, List, length};
    ghost use Rattle.std.specs.Vec.{vec_capacity};
    ghost use Rattle.drive_model.specs.Sectors.{stamps_of};

    ghost Value = { List ℕ };

    ghost view = { λ s. stamps_of s.kept.items s.count };

    ghost invariant = { λ s. (length s.kept.items ≤ s.count) × (s.count ≤ vec_capacity s.kept) };
}

impl SectorStamps {
    /// So many stamps of 0.
    pub fn new(alloc: Global, count: usize) -> Result<SectorStamps, OutOfMemory>
        ensures { IfOk result (λ s. s ≡ replicate count 0) }
    {
        let kept = Vec::with_capacity(alloc, count)?;
        Ok(SectorStamps { kept, count })
    }

    /// How many stamps there are.
    pub fn len(&self) -> usize
        ensures { result ≡ length self.now }
    {
        self.count
    }

    /// The stamp of a sector, 0 past the end.
    pub fn get(&self, at: usize) -> u64
        ensures { result ≡ slice_index self.now at }
    {
        if at < self.kept.len() {
            self.kept[at]
        } else {
            0
        }
    }

    /// A sector has this stamp from now on.
    pub fn put(&mut self, at: usize, stamp: u64)
        requires { at < length self.old }
        ensures { self.new ≡ slice_set self.old at stamp }
    {
        if at < self.kept.len() {
            self.kept[at] = stamp;
        } else {
            reach(&mut self.kept, at);
            self.kept.push_reserved(stamp);
        }
    }
}

/// Stamps of 0 are kept up to this sector, for which there is room.
fn reach(kept: &mut Vec<u64>, at: usize)
    requires { (length kept.old.items ≤ at) × (at < vec_capacity kept.old) }
    ensures items { kept.new.items ≡ kept.old.items ++ replicate (at - length kept.old.items) 0 }
    ensures capacity { vec_capacity kept.old ≤ vec_capacity kept.new }
{
    match kept.resize(at, 0) {
        Ok(()) => (),
        Err(_) => unreachable!(),
    }
}
