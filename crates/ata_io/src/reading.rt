ghost use Rattle.std.specs.Prelude.{◌≡◌, ◌≤◌, ◌<◌, List, ℕ, length, OnOk, IfOk, IfSome, IsErrOf};
ghost use Rattle.std.specs.Io.KnownBytes.{Consumes, IsAtEnd};
ghost use Rattle.ata_io.specs.Reading.{faults_after};

use crate::source::Source;
use std::alloc::Global;
use thiserror::Error;

/// Why a source was not read to its end.
#[derive(Clone, Copy, Debug, PartialEq, Eq, Error)]
pub enum ReadError {
    /// A read failed.
    #[error("Fault")]
    Fault,
    /// More bytes came than were asked for.
    #[error("TooLong")]
    TooLong,
    /// There is no memory for the bytes.
    #[error("Memory")]
    Memory,
}

/// The most bytes that one read is asked for.
const CHUNK: usize = 16384;

/// All bytes of `source` to its end, at most `limit`. `TooLong` comes as soon as more than `limit`
/// came, `Fault` at the first read that failed, `Memory` where the bytes found no room; then the
/// bytes that were read are gone from the source. No read that failed is passed over. It keeps at
/// most `limit` bytes in a vector, whose room may be twice that.
pub fn read_all<S: Source>(
    alloc: Global,
    source: &mut S,
    limit: usize,
) -> Result<Vec<u8>, ReadError>
    ensures bytes { IfOk result (λ bytes. IfSome (S.left source.old) (λ left. bytes.items ≡ left)) }
    ensures end { OnOk result (IsAtEnd (S.left source.new)) }
    ensures within { IfOk result (λ bytes. length bytes.items ≤ limit) }
    ensures too_long { IsErrOf result ReadError.TooLong
        → IfSome (S.left source.old) (λ left. limit < length left) }
    ensures faults { S.fault_count source.new ≡ faults_after result (S.fault_count source.old) }
    ensures gone { (read : List ℕ) × Consumes (S.left source.old) (S.left source.new) read }
{
    let mut bytes = Vec::new(alloc);
    let mut chunk = [0u8; CHUNK];
    loop {
        match source.read(&mut chunk) {
            Err(_) => return Err(ReadError::Fault),
            Ok(0) => return Ok(bytes),
            Ok(count) => {
                if count > limit - bytes.len() {
                    return Err(ReadError::TooLong);
                }
                if bytes.extend_from_slice(&chunk[..count]).is_err() {
                    return Err(ReadError::Memory);
                }
            }
        }
    }
}
