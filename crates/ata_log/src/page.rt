ghost use Rattle.std.specs.Prelude.{◌≡◌, ◌<◌, ◌^◌, Ok};
ghost use Rattle.ata_log.specs.Page.{head_bytes, log_page};
ghost use Rattle.ata_log.specs.Read.{reading_of};

use ata_base::{Regs, Tag};
use ata_lanes::seal;
use byteorder::{ByteOrder, LittleEndian};

/// The page of the queued command with this tag, which ended with these registers (ACS-3, NCQ Command Error log):
/// tag, status, error, LBA, device and count, and the byte that makes the sum 0; every other byte is 0, NQ too. The
/// LBA is below 2^48.
pub fn build(tag: Tag, r: &Regs) -> [u8; 512]
    requires { r.now.lba < 2 ^ 48 }
    ensures page { result ≡ log_page tag r.now }
    ensures read_back { reading_of result ≡ Ok (tag, r.now) }
{
    let front = head(tag, r);
    let mut page = [0; 512];
    page[..14].copy_from_slice(&front);
    seal(&mut page);
    page
}

// Bytes 0 to 13.
fn head(tag: Tag, r: &Regs) -> [u8; 14]
    requires { r.now.lba < 2 ^ 48 }
    ensures value { result ≡ head_bytes tag r.now }
    ensures tag { tag < 32 }
    ensures count { r.now.count < 2 ^ 16 }
{
    let Regs {
        status,
        error,
        lba,
        device,
        count,
    } = *r;
    let mut head = [0; 14];
    head[0] = tag.get();
    head[2] = status;
    head[3] = error;
    LittleEndian::write_u24(&mut head[4..7], (lba % (1 << 24)) as u32);
    head[7] = device;
    LittleEndian::write_u24(&mut head[8..11], (lba >> 24) as u32);
    LittleEndian::write_u16(&mut head[12..14], count);
    head
}
