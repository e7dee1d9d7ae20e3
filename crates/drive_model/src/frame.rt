ghost use Rattle.std.specs.Prelude.{◌≡◌, ℕ, Option, is_some};
ghost use Rattle.ata_base.specs.declared.op.Op.{Op};
ghost use Rattle.ata_tf.specs.CommandCodes.{stamped};
ghost use Rattle.drive_model.specs.Frame.{Gives, IsCommandFrame};
ghost use Rattle.drive_model.specs.Sectors.{IsShort};

use crate::asked::Asked;
use ata_tf::{from_h2d, to_op};

/// What a frame of the table of commands asks for; a write is to store this stamp.
pub fn read(fis: &[u8; 20], stamp: u64) -> Asked
    requires { IsCommandFrame fis.now }
    ensures value { (op : Op) (queued : Option ℕ) → Gives fis.now op queued
        → result ≡ record { op = stamped stamp op; queued = is_some queued } }
    ensures short { IsShort result.op }
{
    match from_h2d(fis) {
        Some((registers, _)) => match to_op(&registers, stamp) {
            Some((op, tag)) => Asked {
                op,
                queued: tag.is_some(),
            },
            None => unreachable!(),
        },
        None => unreachable!(),
    }
}
