ghost use Rattle.std.specs.Prelude.{◌≡◌, IfOk};

use crate::source::{Failed, Source};
use ata_base::OutOfMemory;
use std::alloc::Global;
use std::io::{BufReader, Read};
use std::marker::Model;

/// The most bytes that the reader is asked for at once.
const BLOCK: usize = 65536;

/// A source over a reader, as standard input is, which is read in blocks of 64 KiB. A contract sees
/// it as a `StdSourceView`; of standard input nothing is told.
#[derive(Drop)]
pub struct StdSource<R: Read + Drop> {
    inner: BufReader<R>,
    faults: u64,
}

impl<R: Read + Drop> Model for StdSource<R> {
    ghost use Rattle.std.specs.Io.Buffered.{reader_remaining};
    ghost use Rattle.ata_io.specs.Standard.{StdSourceView};

    ghost Value = { StdSourceView };

    ghost view = { λ s. record { left = reader_remaining R.remaining s.inner; faults = s.faults } };
}

impl<R: Read + Drop> StdSource<R> {
    /// A source over this reader, with room for one block.
    pub fn new(alloc: Global, reader: R) -> Result<StdSource<R>, OutOfMemory>
        ensures { IfOk result (λ s. s ≡ record { left = R.remaining reader; faults = 0 }) }
    {
        match BufReader::with_capacity(alloc, BLOCK, reader) {
            Ok(inner) => Ok(StdSource { inner, faults: 0 }),
            Err(_) => Err(OutOfMemory),
        }
    }
}

impl<R: Read + Drop> Source for StdSource<R> {
    ghost left = { λ s. s.left };

    ghost fault_count = { λ s. s.faults };

    fn faults(&self) -> u64 {
        self.faults
    }

    fn read(&mut self, buf: &mut [u8]) -> Result<usize, Failed> {
        match self.inner.read(buf) {
            Ok(count) => Ok(count),
            Err(_) => {
                self.faults = self.faults.saturating_add(1);
                Err(Failed)
            }
        }
    }
}
