ghost use Rattle.std.specs.Prelude.{◌≡◌, ◌<◌, false, length, replicate, slice_index_or, slice_set, IfOk};

use ata_base::OutOfMemory;
use std::alloc::Global;
use std::marker::Model;

/// So many marks by number, a bit each.
#[derive(Drop)]
pub struct Marks {
    words: Vec<u64>,
    count: usize,
}

impl Model for Marks {
    ghost use Rattle.std.specs.Prelude.{◌*◌, ◌≤◌, Bool, List, length};
    ghost use Rattle.drive_model.specs.Marks.{marks_of};

    ghost Value = { List Bool };

    ghost view = { λ m. marks_of m.words.items m.count };

    ghost invariant = { λ m. m.count ≤ 64 * length m.words.items };
}

impl Marks {
    /// So many marks, none of them set.
    pub fn new(alloc: Global, count: usize) -> Result<Marks, OutOfMemory>
        ensures { IfOk result (λ m. m ≡ replicate count false) }
    {
        let words = vec![in alloc; 0; count.div_ceil(64)]?;
        Ok(Marks { words, count })
    }

    /// How many marks there are.
    pub fn len(&self) -> usize
        ensures { result ≡ length self.now }
    {
        self.count
    }

    /// Whether the mark with this number is set.
    pub fn get(&self, at: usize) -> bool
        requires { at < length self.now }
        ensures { result ≡ slice_index_or self.now at false }
    {
        (self.words[at / 64] >> (at % 64)) & 1 == 1
    }

    /// The mark with this number is set from now on, or isn't any more.
    pub fn put(&mut self, at: usize, marked: bool)
        requires { at < length self.old }
        ensures { self.new ≡ slice_set self.old at marked }
    {
        let bit = 1 << (at % 64);
        if marked {
            self.words[at / 64] |= bit;
        } else {
            self.words[at / 64] &= !bit;
        }
    }
}
