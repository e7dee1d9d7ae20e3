ghost use Rattle.std.specs.Prelude.{◌≡◌, ℕ, ◌<◌, ◌^◌, ◌↔◌, IsNone, IfSome};
ghost use Rattle.ata_base.specs.declared.regs.Regs.{Regs};
ghost use Rattle.ata_tf.specs.DeviceToHost.{d2h_frame, IsNoD2h, FitsD2h};

use crate::fis::{DEVICE_TO_HOST, INTERRUPT};
use ata_base::Regs;

/// The frame that brings the registers of the drive behind port `pm` of a multiplier, 0 without one
/// (Serial ATA 3.x, Register Device to Host FIS). I is set.
pub fn to_d2h(r: &Regs, pm: u8) -> [u8; 20]
    requires lba { r.now.lba < 2 ^ 48 }
    requires port { pm < 16 }
    ensures value { result ≡ d2h_frame r.now pm }
    ensures fits { FitsD2h r.now pm }
{
    let lba = r.lba.to_le_bytes();
    let count = r.count.to_le_bytes();
    [
        DEVICE_TO_HOST,
        INTERRUPT + pm,
        r.status,
        r.error,
        lba[0],
        lba[1],
        lba[2],
        r.device,
        lba[3],
        lba[4],
        lba[5],
        0,
        count[0],
        count[1],
        0,
        0,
        0,
        0,
        0,
        0,
    ]
}

/// The registers and the multiplier port for which `to_d2h` writes these bytes, None exactly where it
/// writes them for none (Serial ATA 3.x, Register Device to Host FIS).
pub fn from_d2h(b: &[u8; 20]) -> Option<(Regs, u8)>
    ensures none { IsNone result ↔ IsNoD2h b.now }
    ensures value { IfSome result (λ r. d2h_frame r.0 r.1 ≡ b.now) }
    ensures fits { IfSome result (λ r. FitsD2h r.0 r.1) }

    // What was written is read back.
    ensures back { (r : Regs) (port : ℕ) → FitsD2h r port
        → d2h_frame r port ≡ b.now → result ≡ Some (r, port) }
{
    if b[0] != DEVICE_TO_HOST || b[1] / 16 != INTERRUPT / 16 || b[11] != 0 {
        return None;
    }
    if b[14] != 0 || b[15] != 0 || b[16] != 0 || b[17] != 0 || b[18] != 0 || b[19] != 0 {
        return None;
    }
    let r = Regs {
        status: b[2],
        error: b[3],
        lba: u64::from_le_bytes([b[4], b[5], b[6], b[8], b[9], b[10], 0, 0]),
        device: b[7],
        count: u16::from_le_bytes([b[12], b[13]]),
    };
    Some((r, b[1] % 16))
}
