ghost use Rattle.std.specs.Prelude.{◌≡◌, List, ℕ};
ghost use Rattle.std.specs.declared.option.Option.{Option};
ghost use Rattle.std.specs.Io.{WritesAtMost};
ghost use Rattle.std.specs.Io.KnownBytes.{WriteAppends};
ghost use Rattle.ata_io.specs.Faults.{HasCause, TakesSome};

use crate::source::Failed;

/// Where bytes go. A contract knows `written`, the bytes taken so far, where the sink tells them,
/// and `faults`, the number of writes that failed, which never falls.
pub trait Sink {
    ghost written: { Self → Option (List ℕ) };

    ghost fault_count: { Self → ℕ };

    /// The number of writes that failed so far, which stays at the last value of u64.
    fn faults(&self) -> u64
        ensures { result ≡ fault_count self.now };

    /// Takes the first bytes of `piece` and answers how many: at most its length, and at least one
    /// where it isn't empty; then the count of faults stays. With `Failed` the count is one more, or
    /// stands at its last value, and the bytes taken stay as they were.
    fn write(&mut self, piece: &[u8]) -> Result<usize, Failed>
        ensures bound { WritesAtMost result piece.now }
        ensures some { TakesSome result piece.now }
        ensures bytes { WriteAppends (written self.old) (written self.new) result piece.now }
        ensures cause { HasCause (fault_count self.old) (fault_count self.new) result };
}
