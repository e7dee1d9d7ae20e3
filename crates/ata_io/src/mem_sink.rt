ghost use Rattle.std.specs.Prelude.{◌≡◌, ◌≤◌, ◌<◌, ◌↔◌, ◌⊎◌, [], Some, ◌+◌, IfOk, IsErr, MatchResult, length};
ghost use Rattle.std.specs.List.Sorted.{IsStrictlyIncreasing};
ghost use Rattle.std.specs.Io.{WritesAtMost};
ghost use Rattle.std.specs.Io.KnownBytes.{WriteAppends};
ghost use Rattle.ata_io.specs.Faults.{HasCause, TakesSome, one_more};
ghost use Rattle.ata_io.specs.Memory.{IsFailing};

use crate::sink::Sink;
use crate::source::Failed;
use ata_base::OutOfMemory;
use std::alloc::Global;
use std::marker::Model;

/// A sink in memory with room for so many bytes, which takes whole pieces and fails at the calls
/// that it was told to fail at. A contract sees it as a `MemSinkView`.
#[derive(Drop)]
pub struct MemSink {
    bytes: Vec<u8>,
    room: usize,
    calls: u64,
    fails: Vec<u64>,
    faults: u64,
}

impl Model for MemSink {
    ghost use Rattle.std.specs.Prelude.{◌≤◌, ◌+◌};
    ghost use Rattle.std.specs.Vec.{vec_len, vec_capacity};
    ghost use Rattle.ata_io.specs.Memory.{MemSinkView};

    ghost Value = { MemSinkView };

    ghost view = { λ s. record {
      written = s.bytes.items;
      room = s.room;
      calls = s.calls;
      fails = s.fails.items;
      faults = s.faults;
    } };

    ghost invariant = { λ s. vec_len s.bytes + s.room ≤ vec_capacity s.bytes };
}

impl MemSink {
    /// An empty sink with room for `room` bytes, which it reserves now; it fails at the calls with
    /// the numbers in `fails`, counted from 1, which have to rise.
    pub fn new(alloc: Global, room: usize, fails: Vec<u64>) -> Result<MemSink, OutOfMemory>
        requires rising { IsStrictlyIncreasing fails.items }
        ensures { IfOk result (λ sink. sink ≡ record {
          written = [];
          room = room;
          calls = 0;
          fails = fails.items;
          faults = 0;
        }) }
    {
        let bytes = Vec::with_capacity(alloc, room)?;
        Ok(MemSink {
            bytes,
            room,
            calls: 0,
            fails,
            faults: 0,
        })
    }

    /// The bytes that were written.
    pub fn bytes(&self) -> &[u8]
        ensures { result.now ≡ self.now.written }
    {
        &self.bytes
    }
}

impl Sink for MemSink {
    ghost written = { λ s. Some s.written };

    ghost fault_count = { λ s. s.faults };

    fn faults(&self) -> u64 {
        self.faults
    }

    fn write(&mut self, piece: &[u8]) -> Result<usize, Failed>
        ensures bound { WritesAtMost result piece.now }
        ensures some { TakesSome result piece.now }
        ensures bytes { WriteAppends (Some self.old.written) (Some self.new.written) result piece.now }
        ensures cause { HasCause self.old.faults self.new.faults result }
        ensures failed { IsErr result
            ↔ (IsFailing self.old.fails self.old.calls ⊎ (self.old.room < length piece.now)) }
        ensures whole { IfOk result (λ n. n ≡ length piece.now) }
        ensures room { MatchResult result (λ n. self.new.room + n ≡ self.old.room) (λ _. self.new.room ≡ self.old.room) }
        ensures calls { self.new.calls ≡ one_more self.old.calls }
        ensures kept { self.new.fails ≡ self.old.fails }
    {
        self.calls = self.calls.saturating_add(1);
        if self.fails.contains(&self.calls) || piece.len() > self.room {
            self.faults = self.faults.saturating_add(1);
            return Err(Failed);
        }
        match self.bytes.extend_from_slice(piece) {
            Ok(()) => (),
            Err(_) => unreachable!(),
        }
        self.room -= piece.len();
        Ok(piece.len())
    }
}
