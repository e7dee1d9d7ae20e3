ghost use Rattle.std.specs.Prelude.{◌≡◌, ◌<◌, ◌%◌, ◌==◌, not};
ghost use Rattle.ata_ident.specs.Read.{reading_of, word_at, sectors_in, depth_in, generation_in, has_bad_sum};

use crate::error::IdentError;
use crate::text::name_at;
use crate::writer::SIGNATURE;
use ata_base::Identity;
use ata_lanes::sum512;
use byteorder::{ByteOrder, LittleEndian};

// Word 83: 48-bit addressing.
const LBA48: u16 = 1 << 10;

// Word 76: NCQ, and the second and third generation of the link.
const NCQ: u16 = 1 << 8;

const GEN2: u16 = 1 << 2;

const GEN3: u16 = 1 << 3;

/// The identity that a page tells of (ACS-3, IDENTIFY DEVICE data).
///
/// Refused in this order: `BadSum` exactly where the low byte of word 255 is A5h and the sum of all bytes isn't 0
/// modulo 256; `NoLba48` exactly where bit 10 of word 83 is 0; `NoSectors` exactly where words 100 to 103 are 0. A
/// page without A5h is taken without a look at its sum.
#[tactic(auto, unfolding(crate::specs::Read::reading_of))]
pub fn read(p: &[u8; 512]) -> Result<Identity, IdentError>
    ensures { result ≡ reading_of p.now }
{
    if p[510] == SIGNATURE && sum512(p) != 0 {
        return Err(IdentError::BadSum);
    }
    if word(p, 83) & LBA48 == 0 {
        return Err(IdentError::NoLba48);
    }
    let sectors = sectors(p);
    if sectors == 0 {
        return Err(IdentError::NoSectors);
    }
    Ok(Identity {
        model: name_at(p, 54),
        serial: name_at(p, 20),
        firmware: name_at(p, 46),
        sectors,
        depth: depth(p),
        gen_no: generation(p),
        udma: (word(p, 88) % 128) as u8,
    })
}

fn word(p: &[u8; 512], k: usize) -> u16
    requires { k < 256 }
    ensures { result ≡ word_at p.now k }
{
    LittleEndian::read_u16(&p[2 * k..])
}

fn sectors(p: &[u8; 512]) -> u64
    ensures { result ≡ sectors_in p.now }
{
    LittleEndian::read_u64(&p[200..208])
}

fn depth(p: &[u8; 512]) -> u8
    ensures { result ≡ depth_in p.now }
{
    if word(p, 76) & NCQ == 0 {
        return 0;
    }
    (word(p, 75) % 32) as u8 + 1
}

fn generation(p: &[u8; 512]) -> u8
    ensures { result ≡ generation_in p.now }
{
    let capabilities = word(p, 76);
    if capabilities & GEN3 != 0 {
        3
    } else if capabilities & GEN2 != 0 {
        2
    } else {
        1
    }
}
