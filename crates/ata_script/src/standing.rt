ghost use Rattle.std.specs.Prelude.{◌≡◌, ◌<◌, ◌++◌, ◌∷◌, [], Some};
ghost use Rattle.ata_script.specs.Draft.{is_next_drive};
ghost use Rattle.ata_script.specs.DrivePlaces.{drive_places};
ghost use Rattle.ata_script.specs.Drafts.{AddsDrive};
ghost use Rattle.ata_script.specs.Heads.{port_said};
ghost use Rattle.ata_script.specs.Places.{is_within, is_free, is_taken, is_place};

use crate::drive_head::DriveHead;
use crate::port_head::PortHead;
use crate::refusal::Refusal;
use ata_base::{DriveNo, Place};

/// Adds a drive to a port where it is the next one, at a place that is free.
pub(crate) fn add_drive(
    port: &mut PortHead,
    number: DriveNo,
    drive: DriveHead,
) -> Result<(), Refusal>
    ensures { AddsDrive port.old port.new number drive result }
{
    if !is_next(port, number, &drive) {
        return Err(Refusal::Rule(6));
    }
    match port.drives.push(drive) {
        Ok(()) => Ok(()),
        Err(_) => Err(Refusal::Memory),
    }
}

// Whether a drive is the next one, at a place that is free.
#[tactic(auto, using(crate::proofs::DrivesAdded::said_places, crate::proofs::DrivesAdded::said_count))]
fn is_next(port: &PortHead, number: DriveNo, drive: &DriveHead) -> bool
    ensures value { result ≡ is_next_drive (Some (port_said port.now)) number drive.now.place }
    ensures small { number < 32 }
{
    let next = number.get() as usize == port.drives.items().len();
    next && (is_within(port.places, drive) && is_free(port.drives.items(), drive))
}

// Whether the place of a drive, if it has one, is a place of a port with so many.
fn is_within(places: u8, drive: &DriveHead) -> bool
    ensures { result ≡ is_within places drive.now.place }
{
    match drive.place {
        Some(place) => place.get() < places,
        None => true,
    }
}

// Whether no other drive stands at the place of this one, if it has one.
fn is_free(others: &[DriveHead], drive: &DriveHead) -> bool
    ensures { result ≡ is_free (drive_places others.now) drive.now.place }
{
    match drive.place {
        Some(place) => !is_taken(others, place),
        None => true,
    }
}

// Whether one of the drives stands at this place.
fn is_taken(drives: &[DriveHead], place: Place) -> bool
    ensures { result ≡ is_taken place (drive_places drives.now) }
{
    for drive in drives {
        if stands_at(drive, place) {
            return true;
        }
    }
    false
}

// Whether a drive stands at this place.
fn stands_at(drive: &DriveHead, place: Place) -> bool
    ensures { result ≡ is_place place drive.now.place }
{
    match drive.place {
        Some(other) => place.get() == other.get(),
        None => false,
    }
}
