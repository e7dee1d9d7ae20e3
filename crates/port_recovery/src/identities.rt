ghost use Rattle.std.specs.Prelude.{◌≡◌, ◌+◌, ◌≤◌, ◌<◌, ◌||◌, [], false, IfSome, length, not, option_and_then, slice_index_or};
ghost use Rattle.std.specs.Option.{option_map_or};
ghost use Rattle.port_ledger.specs.LedgerView.{past};
ghost use Rattle.port_past.specs.Doubt.{dubious};
ghost use Rattle.port_past.specs.Drives.{drive_at};
ghost use Rattle.port_past.specs.Heads.{identity_of};
ghost use Rattle.port_past.specs.Links.{linked_at, links};
ghost use Rattle.port_rules.specs.Identities.{attach_acts, differ, ident_late_acts, ident_read_acts, identity_acts, is_attached_drive, is_other_mode, is_same_drive, ncq_of, udma_of};
ghost use Rattle.port_telling.specs.Adds.{Adds};

use crate::resets::disable_if_attached;
use ata_base::{Identity, Place};
use ata_trace::Act;
use port_ledger::Ledger;
use port_past::IdentityTold;
use port_telling::{drive_of, identified};

/// The UDMA mode of a device that was never lowered.
const FASTEST_UDMA: u64 = 6;

/// The drive that is linked at a place tells who it is: it is identified, is the attached device or comes to be
/// attached, and has its mode.
pub fn read_identity(ledger: &mut Ledger, place: Place)
    requires room { 4 ≤ ledger.old.room }
    ensures { Adds ledger.old ledger.new
        (ident_read_acts (past ledger.old) place (drive_at ledger.old.head (past ledger.old) place)) }
{
    if let Some(number) = linked_drive(ledger, place) {
        identify(ledger, place, number);
    }
}

/// The number of the drive that is linked at a place.
fn linked_drive(ledger: &Ledger, place: Place) -> Option<usize>
    ensures value { option_and_then (identity_of ledger.now.head.drives) result
        ≡ option_and_then (identity_of ledger.now.head.drives) (linked_at (links ledger.now.head (past ledger.now)) place) }
    ensures within { IfSome result (λ number. number < length ledger.now.head.drives) }
{
    match ledger.linked(place) {
        Some(d) if (d.get() as usize) < ledger.head().drives.items().len() => Some(
            d.get() as usize,
        ),
        _ => None,
    }
}

/// The drive of a number is identified at a place. What its acts say is read before the first is told.
fn identify(ledger: &mut Ledger, place: Place, number: usize)
    requires room { 4 ≤ ledger.old.room }
    requires within { number < length ledger.old.head.drives }
    ensures { Adds ledger.old ledger.new
        (option_map_or (identity_acts (past ledger.old) place) (identity_of ledger.old.head.drives number) []) }
{
    let drive = drive_of(ledger.head().drives.items(), number);
    let same = is_attached_drive(ledger, place, &drive.identity);
    let udma = udma_of(ledger, place, same);
    let ncq = ncq_of(ledger, place, same, &drive.identity);
    let dubious = is_in_doubt(ledger, place, same, udma, ncq);
    let identified = identified(place, drive);
    ledger.note(identified);
    attach(ledger, place, same);
    ledger.note(Act::Mode {
        place,
        udma,
        ncq,
        dubious,
    });
}

/// Whether a device that is found is the one that is attached.
fn is_attached_drive(ledger: &Ledger, place: Place, found: &Identity) -> bool
    ensures { result ≡ is_attached_drive (past ledger.now) place found.now }
{
    ledger.is_attached(place) && is_known(ledger.identity(place), found)
}

/// Whether an identity was told before, and was of the drive that is found.
fn is_known(told: &Option<IdentityTold>, found: &Identity) -> bool
    ensures { result ≡ option_map_or (is_same_drive found.now) told.now false }
{
    match told {
        Some(known) => is_same_drive(found, known),
        None => false,
    }
}

/// Whether an identity is of the drive that told another: model, serial and sectors are the same.
fn is_same_drive(found: &Identity, known: &IdentityTold) -> bool
    ensures { result ≡ is_same_drive found.now known.now }
{
    found.model.bytes() == known.model.bytes()
        && found.serial.bytes() == known.serial.bytes()
        && found.sectors == known.sectors
}

/// The UDMA mode of a device: the fastest less the lowerings, of which a new device has none.
fn udma_of(ledger: &Ledger, place: Place, same: bool) -> u8
    ensures { result ≡ udma_of (past ledger.now) place same }
{
    if same {
        FASTEST_UDMA.saturating_sub(ledger.lowerings(place)) as u8
    } else {
        FASTEST_UDMA as u8
    }
}

/// Whether NCQ is on: the device has a queue, and no action ended it, of which a new device has none.
fn ncq_of(ledger: &Ledger, place: Place, same: bool, found: &Identity) -> bool
    ensures { result ≡ ncq_of (past ledger.now) place same found.now }
{
    found.depth != 0 && !(same && ledger.is_ncq_ended(place))
}

/// Whether a device is in doubt: it is a new one, was dubious before, or has another mode.
fn is_in_doubt(ledger: &Ledger, place: Place, same: bool, udma: u8, ncq: bool) -> bool
    ensures { result
        ≡ (not same || slice_index_or (dubious (past ledger.now)) place false || is_other_mode (past ledger.now) place udma ncq) }
{
    !same || ledger.is_dubious(place) || is_other_mode(ledger, place, udma, ncq)
}

/// Whether a mode differs from the last one of a place.
fn is_other_mode(ledger: &Ledger, place: Place, udma: u8, ncq: bool) -> bool
    ensures { result ≡ is_other_mode (past ledger.now) place udma ncq }
{
    udma != ledger.udma(place) || differ(ncq, ledger.is_ncq_on(place))
}

/// Whether two truth values differ.
fn differ(a: bool, b: bool) -> bool
    ensures { result ≡ differ a b }
{
    if a { !b } else { b }
}

/// The device that is found is the attached one, or it is attached in the place of the one before.
fn attach(ledger: &mut Ledger, place: Place, same: bool)
    requires room { 2 ≤ ledger.old.room }
    ensures adds { Adds ledger.old ledger.new (attach_acts (past ledger.old) place same) }
    ensures few { ledger.old.room ≤ ledger.new.room + 2 }
{
    if same {
        ledger.note(Act::Same { place });
    } else if ledger.is_attached(place) {
        ledger.note(Act::Detached { place });
        ledger.note(Act::Attached { place });
    } else {
        ledger.note(Act::Attached { place });
    }
}

/// An identity is late: it is tried again, or else the device is given up, where one is attached.
#[tactic(auto, using(port_telling::proofs::AddLemmas::adds_act, port_telling::proofs::AddLemmas::adds_more))]
pub fn ident_late(ledger: &mut Ledger, place: Place, again: bool)
    requires room { 2 ≤ ledger.old.room }
    ensures { Adds ledger.old ledger.new (ident_late_acts (past ledger.old) place again) }
{
    ledger.note(Act::IdentLate { place });
    if !again {
        disable_if_attached(ledger, place);
    }
}
