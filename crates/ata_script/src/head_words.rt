ghost use Rattle.std.specs.Prelude.{◌≡◌, ◌≤◌, ◌∷◌, [], ◌&&◌, not, false, ℕ, codes, if◌then◌else◌};
ghost use Rattle.ata_trace.specs.Parts.{first, none_left};
ghost use Rattle.ata_trace.specs.Told.{third};
ghost use Rattle.ata_script.specs.Drafts.{drive_line, port_line};
ghost use Rattle.ata_script.specs.Forms.{drive_form};
ghost use Rattle.ata_script.specs.Taking.{after, behind, drain_for, last_for, tail_for, options_in, port_form_for, port_item, pmp_line, pmp_fields, drive_item};
ghost use Rattle.ata_script.specs.Items.Item.{Port};

use crate::drive_head::DriveHead;
use crate::drives::Drives;
use crate::fields::Fields;
use crate::port_head::PortHead;
use crate::step_words::{drive_no, port_no};
use ata_base::{DriveNo, Identity, MOST_DRIVE_SECTORS, Ms, Name, Name8, PortNo};
use std::alloc::Global;

/// Takes what follows the word `port`. In version 2 there may be more.
pub(crate) fn port(alloc: Global, fields: &mut Fields<'_>, two: bool) -> (PortNo, PortHead)
    ensures value { port_line result.0 result.1 ≡ port_item two (codes "port" ∷ fields.old.rest) }
    ensures no_drives { result.1.drives ≡ [] }
    ensures state { fields.new ≡ after (behind (port_form_for two (codes "port" ∷ fields.old.rest))) fields.old }
{
    let number = port_no(fields);
    if fields.take(b"direct") {
        (number, direct(alloc, fields, two))
    } else {
        (number, multiplier(alloc, fields, two))
    }
}

// Takes what follows the word `direct`.
fn direct(alloc: Global, fields: &mut Fields<'_>, two: bool) -> PortHead
    ensures value { (number : ℕ) → port_line number result ≡ Port number 1 false false (two && not (none_left fields.old.rest)) }
    ensures no_drives { result.drives ≡ [] }
    ensures state { fields.new ≡ after (last_for two fields.old.rest) fields.old }
{
    let drain = two && drain(fields);
    PortHead {
        places: 1,
        pmp: false,
        fbs: false,
        drain,
        drives: Drives::new(alloc),
    }
}

// Takes the words of a multiplier, from `pmp` on.
fn multiplier(alloc: Global, fields: &mut Fields<'_>, two: bool) -> PortHead
    ensures value { (number : ℕ) → port_line number result ≡ pmp_line number two fields.old.rest }
    ensures no_drives { result.drives ≡ [] }
    ensures state { fields.new ≡ after (pmp_fields two fields.old.rest) fields.old }
{
    fields.small(b"pmp");
    let places = fields.number(1, 15) as u8;
    let (fbs, drain) = options(fields, two);
    PortHead {
        places,
        pmp: true,
        fbs,
        drain,
        drives: Drives::new(alloc),
    }
}

// Takes the words `fbs` and `drain` at the end of a line of version 2, and says which stood there.
fn options(fields: &mut Fields<'_>, two: bool) -> (bool, bool)
    ensures value { result ≡ options_in two fields.old.rest }
    ensures state { fields.new ≡ after (tail_for two fields.old.rest) fields.old }
{
    if !two || fields.is_over() {
        return (false, false);
    }
    if fields.take(b"fbs") {
        (true, drain(fields))
    } else {
        fields.small(b"drain");
        (false, true)
    }
}

// Takes the word `drain` at the end of a line, if a word is left, and says whether one was.
fn drain(fields: &mut Fields<'_>) -> bool
    ensures value { result ≡ not (none_left fields.old.rest) }
    ensures state { fields.new ≡ after (drain_for fields.old.rest) fields.old }
{
    if fields.is_over() {
        false
    } else {
        fields.small(b"drain");
        true
    }
}

/// Takes what follows the word `drive`.
pub(crate) fn drive(fields: &mut Fields<'_>) -> (PortNo, DriveNo, DriveHead)
    ensures value { drive_line result.0 result.1 result.2 ≡ drive_item (codes "drive" ∷ fields.old.rest) }
    ensures state { fields.new ≡ after (behind drive_form) fields.old }
{
    let port = port_no(fields);
    let number = drive_no(fields);
    let place = fields.place_or_none();
    let identity = Identity {
        model: fields.name(),
        serial: fields.name(),
        firmware: firmware(),
        sectors: fields.number(1, MOST_DRIVE_SECTORS as u64),
        depth: fields.number(0, 32) as u8,
        gen_no: fields.number(1, 3) as u8,
        udma: 0x7f,
    };
    let ready = Ms {
        n: fields.number(0, 60000),
    };
    (
        port,
        number,
        DriveHead {
            place,
            identity,
            ready,
        },
    )
}

// The firmware of each drive.
fn firmware() -> Name8
    ensures { result ≡ codes "ATAHOST1" }
{
    match Name::new(b"ATAHOST1") {
        Some(text) => text,
        None => unreachable!(),
    }
}
