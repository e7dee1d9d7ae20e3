ghost use Rattle.std.specs.Prelude.{◌≡◌, List, ℕ};
ghost use Rattle.std.specs.declared.option.Option.{Option};
ghost use Rattle.std.specs.Io.{ReadsAtMost};
ghost use Rattle.std.specs.Io.KnownBytes.{ReadConsumes};
ghost use Rattle.ata_io.specs.Faults.{HasCause};

use thiserror::Error;

/// A read or a write failed, and nothing of it was done.
#[derive(Clone, Copy, Debug, PartialEq, Eq, Error)]
#[error("Failed")]
pub struct Failed;

/// Where bytes come from. A contract knows `left`, the bytes still to come, where the source tells
/// them, and `faults`, the number of reads that failed, which never falls.
pub trait Source {
    ghost left: { Self → Option (List ℕ) };

    ghost fault_count: { Self → ℕ };

    /// The number of reads that failed so far, which stays at the last value of u64.
    fn faults(&self) -> u64
        ensures { result ≡ fault_count self.now };

    /// Moves the next bytes into `buf` and answers how many, at most its length. Zero, for a
    /// buffer that isn't empty, is the end of input. Then the count of faults stays. With `Failed` it
    /// is one more, or stands at its last value, and the bytes still to come stay as they were.
    fn read(&mut self, buf: &mut [u8]) -> Result<usize, Failed>
        ensures bound { ReadsAtMost result buf.new }
        ensures bytes { ReadConsumes (left self.old) (left self.new) result buf.new }
        ensures cause { HasCause (fault_count self.old) (fault_count self.new) result };
}
