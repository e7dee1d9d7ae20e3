ghost use Rattle.ata_io.specs.Writing.{Writes};

use crate::sink::Sink;
use thiserror::Error;

/// A piece was not written to its end, since a write failed.
#[derive(Clone, Copy, Debug, PartialEq, Eq, Error)]
#[error("WriteFault")]
pub struct WriteFault;

/// Appends the whole `piece` to `sink`, and no write failed; or `WriteFault` at the first write that
/// failed, and a prefix of the piece was appended. Takes no memory.
pub fn put_all<K: Sink>(sink: &mut K, piece: &[u8]) -> Result<(), WriteFault>
    ensures { Writes K.written K.fault_count sink.old sink.new result piece.now }
{
    let mut at = 0;
    while at < piece.len() {
        match sink.write(&piece[at..]) {
            Ok(count) => at += count,
            Err(_) => return Err(WriteFault),
        }
    }
    Ok(())
}
