ghost use Rattle.std.specs.Prelude.{◌≡◌, ℕ, ◌<◌, ◌^◌, ◌↔◌, IsNone, IfSome};
ghost use Rattle.ata_tf.specs.SetDeviceBits.{sdb_frame, busy_bits, IsNoSdb, FitsSdb};

use crate::fis::{INTERRUPT, SET_DEVICE_BITS};

/// The status bits that the frame has no place for: bit 7 (BSY) and bit 3 (DRQ).
const BUSY: u8 = 0x88;

/// The frame that tells which queued commands are finished, behind port `pm` of a multiplier, 0 without
/// one (Serial ATA 3.x, Set Device Bits FIS). Bit t of `sactive` stands for tag t. I is set and N clear.
pub fn to_sdb(status: u8, error: u8, pm: u8, sactive: u32) -> [u8; 8]
    requires busy { busy_bits status ≡ 0 }
    requires port { pm < 16 }
    ensures value { result ≡ sdb_frame status error pm sactive }
    ensures fits { FitsSdb status pm sactive }
{
    let tags = sactive.to_le_bytes();
    [
        SET_DEVICE_BITS,
        INTERRUPT + pm,
        status,
        error,
        tags[0],
        tags[1],
        tags[2],
        tags[3],
    ]
}

/// The status, the error, the multiplier port and the finished tags for which `to_sdb` writes these
/// bytes, None exactly where it writes them for none (Serial ATA 3.x, Set Device Bits FIS).
pub fn from_sdb(b: &[u8; 8]) -> Option<(u8, u8, u8, u32)>
    ensures none { IsNone result ↔ IsNoSdb b.now }
    ensures value { IfSome result (λ r. sdb_frame r.0 r.1 r.2 r.3 ≡ b.now) }
    ensures fits { IfSome result (λ r. FitsSdb r.0 r.2 r.3) }

    // What was written is read back.
    ensures back { (status error port sactive : ℕ) → FitsSdb status port sactive
        → sdb_frame status error port sactive ≡ b.now → result ≡ Some (status, error, port, sactive) }
{
    if b[0] != SET_DEVICE_BITS || b[1] / 16 != INTERRUPT / 16 || b[2] & BUSY != 0 {
        return None;
    }
    Some((
        b[2],
        b[3],
        b[1] % 16,
        u32::from_le_bytes([b[4], b[5], b[6], b[7]]),
    ))
}
