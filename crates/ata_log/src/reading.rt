ghost use Rattle.std.specs.Prelude.{◌≡◌};
ghost use Rattle.ata_log.specs.Read.{reading_of, tag_in, lba_in};

use crate::error::LogError;
use ata_base::{Regs, Tag};
use ata_lanes::sum512;
use byteorder::{ByteOrder, LittleEndian};

// Byte 0: the command that failed wasn't a queued one.
const NQ: u8 = 0x80;

/// The tag of the queued command that failed and the registers with which it ended (ACS-3, NCQ Command Error log).
///
/// Refused in this order: `BadSum` exactly where the sum of all bytes isn't 0 modulo 256; `NotQueued` exactly where
/// NQ, bit 7 of byte 0, is 1.
pub fn read(p: &[u8; 512]) -> Result<(Tag, Regs), LogError>
    ensures { result ≡ reading_of p.now }
{
    if sum512(p) != 0 {
        return Err(LogError::BadSum);
    }
    if p[0] >= NQ {
        return Err(LogError::NotQueued);
    }
    let regs = Regs {
        status: p[2],
        error: p[3],
        lba: lba(p),
        device: p[7],
        count: LittleEndian::read_u16(&p[12..14]),
    };
    Ok((tag(p), regs))
}

fn tag(p: &[u8; 512]) -> Tag
    ensures { result ≡ tag_in p.now }
{
    Tag::at(p[0] % 32)
}

fn lba(p: &[u8; 512]) -> u64
    ensures { result ≡ lba_in p.now }
{
    let low = LittleEndian::read_u24(&p[4..7]);
    let high = LittleEndian::read_u24(&p[8..11]);
    low as u64 + ((high as u64) << 24)
}
