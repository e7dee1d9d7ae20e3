ghost use Rattle.std.specs.Prelude.{◌≡◌, ◌<◌, ◌↔◌, ◌≤◌, Some, IsErr, IfOk};
ghost use Rattle.std.specs.List.Sorted.{IsStrictlyIncreasing};
ghost use Rattle.std.specs.Io.{ReadsAtMost};
ghost use Rattle.std.specs.Io.KnownBytes.{ReadConsumes};
ghost use Rattle.ata_io.specs.Faults.{HasCause, one_more};
ghost use Rattle.ata_io.specs.Memory.{IsFailing};

use crate::source::{Failed, Source};
use crate::supply::give;
use std::marker::Model;

/// A source in memory that gives at most `most` bytes a call, and fails at the calls that it was
/// told to fail at. A contract sees it as a `MemSourceView`.
#[derive(Drop)]
pub struct MemSource {
    bytes: Vec<u8>,
    at: usize,
    most: usize,
    calls: u64,
    fails: Vec<u64>,
    faults: u64,
}

impl Model for MemSource {
    ghost use Rattle.std.specs.Prelude.{◌≤◌, ◌<◌, drop, length};
    ghost use Rattle.ata_io.specs.Memory.{MemSourceView};

    ghost Value = { MemSourceView };

    ghost view = { λ s. record {
      left = drop s.at s.bytes.items;
      most = s.most;
      calls = s.calls;
      fails = s.fails.items;
      faults = s.faults;
    } };

    ghost invariant = { λ s. (s.at ≤ length s.bytes.items) × (0 < s.most) };
}

impl MemSource {
    /// A source of these bytes that gives at most `most` of them a call, and fails at the calls
    /// with the numbers in `fails`, counted from 1, which have to rise. Takes no memory.
    pub fn new(bytes: Vec<u8>, most: usize, fails: Vec<u64>) -> MemSource
        requires some { 0 < most }
        requires rising { IsStrictlyIncreasing fails.items }
        ensures { result ≡ record {
          left = bytes.items;
          most = most;
          calls = 0;
          fails = fails.items;
          faults = 0;
        } }
    {
        MemSource {
            bytes,
            at: 0,
            most,
            calls: 0,
            fails,
            faults: 0,
        }
    }
}

impl Source for MemSource {
    ghost left = { λ s. Some s.left };

    ghost fault_count = { λ s. s.faults };

    fn faults(&self) -> u64 {
        self.faults
    }

    fn read(&mut self, buf: &mut [u8]) -> Result<usize, Failed>
        ensures bound { ReadsAtMost result buf.new }
        ensures bytes { ReadConsumes (Some self.old.left) (Some self.new.left) result buf.new }
        ensures cause { HasCause self.old.faults self.new.faults result }
        ensures failed { IsErr result ↔ IsFailing self.old.fails self.old.calls }
        ensures most { IfOk result (λ n. n ≤ self.old.most) }
        ensures calls { self.new.calls ≡ one_more self.old.calls }
        ensures kept { (self.new.most ≡ self.old.most) × (self.new.fails ≡ self.old.fails) }
    {
        self.calls = self.calls.saturating_add(1);
        if self.fails.contains(&self.calls) {
            self.faults = self.faults.saturating_add(1);
            return Err(Failed);
        }
        let count = give(&self.bytes[self.at..], buf, self.most);
        self.at += count;
        Ok(count)
    }
}
