ghost use Rattle.std.specs.Prelude.{◌≡◌, [], IfOk, OnOk};
ghost use Rattle.std.specs.Io.KnownBytes.{Keeps};
ghost use Rattle.ata_io.specs.Faults.{HasCause};

use crate::sink::Sink;
use crate::source::Failed;
use ata_base::OutOfMemory;
use std::alloc::Global;
use std::io::{BufWriter, Write};
use std::marker::Model;

/// How many bytes are gathered before the writer is given them.
const BLOCK: usize = 65536;

/// A sink over a writer, as standard output is, which gathers pieces and hands them on in blocks of
/// 64 KiB; `flush` hands on what waits. A contract sees it as a `StdSinkView`; of standard output
/// nothing is told.
#[derive(Drop)]
pub struct StdSink<W: Write + Drop> {
    inner: BufWriter<W>,
    faults: u64,
}

impl<W: Write + Drop> Model for StdSink<W> {
    ghost use Rattle.std.specs.Io.Buffered.{writer_contents, writer_buffer};
    ghost use Rattle.ata_io.specs.Standard.{StdSinkView};

    ghost Value = { StdSinkView };

    ghost view = { λ s. record {
      written = writer_contents W.contents s.inner;
      waiting = writer_buffer s.inner;
      faults = s.faults;
    } };
}

impl<W: Write + Drop> StdSink<W> {
    /// A sink over this writer, with room for one block.
    pub fn new(alloc: Global, writer: W) -> Result<StdSink<W>, OutOfMemory>
        ensures { IfOk result (λ s. s ≡ record {
          written = W.contents writer;
          waiting = [];
          faults = 0;
        }) }
    {
        match BufWriter::with_capacity(alloc, BLOCK, writer) {
            Ok(inner) => Ok(StdSink { inner, faults: 0 }),
            Err(_) => Err(OutOfMemory),
        }
    }

    /// Hands on what waits; then the count of faults stays. With `Failed` it is one more, or stands
    /// at its last value, and what the writer didn't take waits on.
    pub fn flush(&mut self) -> Result<(), Failed>
        ensures ok { OnOk result (self.new.waiting ≡ []) }
        ensures bytes { Keeps self.old.written self.new.written }
        ensures cause { HasCause self.old.faults self.new.faults result }
    {
        match self.inner.flush() {
            Ok(()) => Ok(()),
            Err(_) => {
                self.faults = self.faults.saturating_add(1);
                Err(Failed)
            }
        }
    }
}

impl<W: Write + Drop> Sink for StdSink<W> {
    ghost written = { λ s. s.written };

    ghost fault_count = { λ s. s.faults };

    fn faults(&self) -> u64 {
        self.faults
    }

    fn write(&mut self, piece: &[u8]) -> Result<usize, Failed> {
        match self.inner.write(piece) {
            Ok(count) if count > 0 || piece.is_empty() => Ok(count),
            _ => {
                self.faults = self.faults.saturating_add(1);
                Err(Failed)
            }
        }
    }
}
