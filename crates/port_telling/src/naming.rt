ghost use Rattle.std.specs.Prelude.{◌≡◌, ◌<◌, Some, length, slice_get};
ghost use Rattle.ata_trace.specs.declared.act.Act.TheVariants.{Identified};

use ata_base::Place;
use ata_script::DriveHead;
use ata_trace::{Act, ModelName, SerialName};

/// The drive of a number, lent. There has to be one.
pub fn drive_of(drives: &[DriveHead], number: usize) -> &DriveHead
    requires { number < length drives.now }
    ensures { slice_get drives.now number ≡ Some result.now }
{
    &drives[number]
}

/// The act by which a drive is identified at a place.
pub fn identified(place: Place, drive: &DriveHead) -> Act
    ensures { result ≡ Identified place drive.now.identity.model drive.now.identity.serial
        drive.now.identity.sectors drive.now.identity.depth }
{
    Act::Identified {
        place,
        model: model_of(drive),
        serial: serial_of(drive),
        sectors: drive.identity.sectors,
        depth: drive.identity.depth,
    }
}

/// The model of a drive, as a journal tells it.
fn model_of(drive: &DriveHead) -> ModelName
    ensures { result ≡ drive.now.identity.model }
{
    match ModelName::new(&drive.identity.model) {
        Some(name) => name,
        None => unreachable!(),
    }
}

/// The serial number of a drive, as a journal tells it.
fn serial_of(drive: &DriveHead) -> SerialName
    ensures { result ≡ drive.now.identity.serial }
{
    match SerialName::new(&drive.identity.serial) {
        Some(name) => name,
        None => unreachable!(),
    }
}
