ghost use Rattle.std.specs.Prelude.{◌≡◌, ◌<◌, ◌≤◌, ◌∷◌, [], map, codes, IfOk};
ghost use Rattle.ata_script.specs.Heads.{drive_said, port_said};
ghost use Rattle.ata_gen.specs.Generated.{direct_made, drive_made, multiplier_made, ports_made, serial_made};

use ata_base::{Identity, Ms, Name, Name8, Name20, Name40, OutOfMemory, Place};
use ata_script::{DriveHead, Drives, Head, PortHead};
use std::alloc::Global;

/// The ports of each script: a direct one with a drive, and a multiplier with three.
pub fn ports(alloc: Global) -> Result<Head, OutOfMemory>
    ensures { IfOk result (λ head. map port_said head ≡ ports_made) }
{
    let mut head = Head::new(alloc);
    head.push(direct(alloc)?)?;
    head.push(multiplier(alloc)?)?;
    Ok(head)
}

/// The direct port.
fn direct(alloc: Global) -> Result<PortHead, OutOfMemory>
    ensures { IfOk result (λ port. port_said port ≡ direct_made) }
{
    let mut drives = Drives::new(alloc);
    drives.push(drive(0, 0, 32, 3))?;
    Ok(PortHead {
        places: 1,
        pmp: false,
        fbs: false,
        drain: false,
        drives,
    })
}

/// The multiplier.
fn multiplier(alloc: Global) -> Result<PortHead, OutOfMemory>
    ensures { IfOk result (λ port. port_said port ≡ multiplier_made) }
{
    let mut drives = Drives::new(alloc);
    drives.push(drive(0, 1, 32, 2))?;
    drives.push(drive(1, 2, 32, 2))?;
    drives.push(drive(2, 3, 0, 1))?;
    Ok(PortHead {
        places: 3,
        pmp: true,
        fbs: false,
        drain: false,
        drives,
    })
}

/// The drive of a number, 0 to 9, at a place: the depth of its queue, and the generation of its link.
fn drive(place: u8, number: u8, depth: u8, generation: u8) -> DriveHead
    requires place { place < 15 }
    requires number { number < 10 }
    requires depth { depth ≤ 32 }
    requires least { 1 ≤ generation }
    requires most { generation ≤ 3 }
    ensures { drive_said result ≡ drive_made place number depth generation }
{
    let identity = Identity {
        model: model(),
        serial: serial(number),
        firmware: firmware(),
        sectors: 65536,
        depth,
        gen_no: generation,
        udma: 0x7f,
    };
    DriveHead {
        place: Some(Place::at(place)),
        identity,
        ready: Ms { n: 0 },
    }
}

/// The model of each drive.
fn model() -> Name40
    ensures { result ≡ codes "GEN" }
{
    match Name::new(b"GEN") {
        Some(text) => text,
        None => unreachable!(),
    }
}

/// The serial number of a drive: `S` and its number.
fn serial(number: u8) -> Name20
    requires { number < 10 }
    ensures { result ≡ serial_made number }
{
    match Name::new(&[b'S', b'0' + number]) {
        Some(text) => text,
        None => unreachable!(),
    }
}

/// The firmware of each drive.
fn firmware() -> Name8
    ensures { result ≡ codes "ATAHOST1" }
{
    match Name::new(b"ATAHOST1") {
        Some(text) => text,
        None => unreachable!(),
    }
}
