ghost use Rattle.std.specs.Prelude.{◌≡◌, if◌then◌else◌};
ghost use Rattle.ata_base.specs.Kinds.{AllKnown};
ghost use Rattle.eh_autopsy.specs.Kinds.{kinds_of_registers, kinds_of_serror, is_hotplug, reduced};

use ata_base::{ErrMask, Kinds, Regs};
use bitflags::Flags;

// The status field (ACS-3).
const BSY: u8 = 0x80;

const DRDY: u8 = 0x40;

const DF: u8 = 0x20;

const DRQ: u8 = 0x08;

const ERR: u8 = 0x01;

// The error field (ACS-3).
const ICRC: u8 = 0x80;

const UNC: u8 = 0x40;

const IDNF: u8 = 0x10;

const AMNF: u8 = 0x01;

// The SError register (Serial ATA 3.x).
const DATA: u32 = 1 << 8;

const PERSISTENT: u32 = 1 << 9;

const PROTOCOL: u32 = 1 << 10;

const INTERNAL: u32 = 1 << 11;

const PHY_READY: u32 = 1 << 16;

const EXCHANGED: u32 = 1 << 26;

/// The kinds of error that a command's registers tell of (ACS-3, Status field and Error field). Where BSY, DRDY and DRQ
/// aren't exactly DRDY, it is an error of the host's state machine and nothing else. Else ERR or DF is one of the drive,
/// and beside that ICRC one of the wire, UNC or AMNF one of the medium and IDNF one of the request.
pub fn analyse_regs(r: &Regs) -> Kinds
    ensures { result.0 ≡ kinds_of_registers r.now.status r.now.error }
{
    let Regs { status, error, .. } = *r;
    if status & (BSY | DRDY | DRQ) != DRDY {
        return Kinds::at(ErrMask::HSM);
    }
    kind_if(status & ERR != 0 || status & DF != 0, ErrMask::DEV)
        .union(kind_if(error & ICRC != 0, ErrMask::ATA_BUS))
        .union(kind_if(error & UNC != 0 || error & AMNF != 0, ErrMask::MEDIA))
        .union(kind_if(error & IDNF != 0, ErrMask::INVALID))
}

/// The kinds of error that SError tells of (Serial ATA 3.x, SError register), and whether it tells of a plugged or
/// unplugged drive. Data and persistent errors are of the wire, protocol errors of the host's state machine, internal
/// ones of the system. A PhyRdy change is hotplug; exchanged is too, but not at a place of a multiplier (`pmp`) without
/// an attached device.
pub fn analyse_serror(bits: u32, attached: bool, pmp: bool) -> (Kinds, bool)
    ensures kinds { result.0.0 ≡ kinds_of_serror bits }
    ensures hotplug { result.1 ≡ is_hotplug bits attached pmp }
{
    let kinds = kind_if(bits & DATA != 0 || bits & PERSISTENT != 0, ErrMask::ATA_BUS)
        .union(kind_if(bits & PROTOCOL != 0, ErrMask::HSM))
        .union(kind_if(bits & INTERNAL != 0, ErrMask::SYSTEM));
    (kinds, is_hotplug(bits, attached, pmp))
}

fn is_hotplug(bits: u32, attached: bool, pmp: bool) -> bool
    ensures { result ≡ is_hotplug bits attached pmp }
{
    bits & PHY_READY != 0 || (bits & EXCHANGED != 0 && !(pmp && !attached))
}

/// The kinds that stay: with an error of the wire, those of the drive, the medium and the request go; beside any other
/// kind, `OTHER` goes.
pub fn reduce(k: Kinds) -> Kinds
    ensures { result.0 ≡ reduced k.0 }
{
    let mut kinds = k;
    if kinds.mask().intersects(ErrMask::ATA_BUS) {
        kinds = kinds.without(ErrMask::DEV.union(ErrMask::MEDIA).union(ErrMask::INVALID));
    }
    let named = kinds.without(ErrMask::OTHER);
    if named == Kinds::none() { kinds } else { named }
}

fn kind_if(found: bool, kind: ErrMask) -> Kinds
    requires { AllKnown kind.0 }
    ensures { result.0 ≡ (if found then kind.0 else 0) }
{
    if found {
        Kinds::at(kind)
    } else {
        Kinds::none()
    }
}
