ghost use Rattle.std.specs.Prelude.{◌≡◌, ℕ, ◌<◌, ◌^◌, ◌↔◌, IsNone, IfSome};
ghost use Rattle.ata_tf.specs.declared.taskfile.Taskfile.{Taskfile};
ghost use Rattle.ata_tf.specs.HostToDevice.{h2d_frame, IsNoH2d, FitsH2d};

use crate::fis::{COMMAND, HOST_TO_DEVICE};
use crate::taskfile::Taskfile;

/// The frame that gives a command to the drive behind port `pm` of a multiplier, 0 without one
/// (Serial ATA 3.x, Register Host to Device FIS).
pub fn to_h2d(t: &Taskfile, pm: u8) -> [u8; 20]
    requires lba { t.now.lba < 2 ^ 48 }
    requires port { pm < 16 }
    ensures value { result ≡ h2d_frame t.now pm }
    ensures fits { FitsH2d t.now pm }
{
    let features = t.features.to_le_bytes();
    let lba = t.lba.to_le_bytes();
    let count = t.count.to_le_bytes();
    [
        HOST_TO_DEVICE,
        COMMAND + pm,
        t.command,
        features[0],
        lba[0],
        lba[1],
        lba[2],
        t.device,
        lba[3],
        lba[4],
        lba[5],
        features[1],
        count[0],
        count[1],
        0,
        0,
        0,
        0,
        0,
        0,
    ]
}

/// The registers and the multiplier port for which `to_h2d` writes these bytes, None exactly where it
/// writes them for none (Serial ATA 3.x, Register Host to Device FIS).
pub fn from_h2d(b: &[u8; 20]) -> Option<(Taskfile, u8)>
    ensures none { IsNone result ↔ IsNoH2d b.now }
    ensures value { IfSome result (λ r. h2d_frame r.0 r.1 ≡ b.now) }
    ensures fits { IfSome result (λ r. FitsH2d r.0 r.1) }

    // What was written is read back.
    ensures back { (t : Taskfile) (port : ℕ) → FitsH2d t port
        → h2d_frame t port ≡ b.now → result ≡ Some (t, port) }
{
    if b[0] != HOST_TO_DEVICE || b[1] / 16 != COMMAND / 16 {
        return None;
    }
    if b[14] != 0 || b[15] != 0 || b[16] != 0 || b[17] != 0 || b[18] != 0 || b[19] != 0 {
        return None;
    }
    let t = Taskfile {
        command: b[2],
        features: u16::from_le_bytes([b[3], b[11]]),
        lba: u64::from_le_bytes([b[4], b[5], b[6], b[8], b[9], b[10], 0, 0]),
        count: u16::from_le_bytes([b[12], b[13]]),
        device: b[7],
    };
    Some((t, b[1] % 16))
}
