ghost use Rattle.std.specs.Prelude.{◌≡◌, None, IfOk, slice_index_or};
ghost use Rattle.ata_trace.specs.Event.Event.{Told};
ghost use Rattle.port_past.specs.IdentAnswers.{ident_answered_after};
ghost use Rattle.port_past.specs.Identified.{identified_by_after};
ghost use Rattle.port_past.specs.Identities.{identities_after};
ghost use Rattle.port_past.specs.Places.{nowhere};

use crate::drive_list::DriveList;
use crate::links::{Links, linked_at};
use ata_base::{DriveNo, MOST_PLACES, OutOfMemory, Place};
use ata_trace::{Act, ModelName, SerialName};
use port_past::IdentityTold;
use std::alloc::Global;
use std::marker::Model;

/// By place, the number of a drive, where there is one.
pub type DriveNumbers = [Option<DriveNo>; MOST_PLACES];

/// What the last identity told of each place: at most 65,536 sectors.
#[derive(Drop)]
pub struct Identities {
    list: Vec<Option<IdentityTold>>,
}

impl Model for Identities {
    ghost use Rattle.std.specs.Prelude.{◌≡◌, List, Option, length};
    ghost use Rattle.port_past.specs.declared.identity_told.IdentityTold.{IdentityTold};

    ghost Value = { List (Option IdentityTold) };

    ghost view = { λ i. i.list.items };

    ghost invariant = { λ i. length i.list.items ≡ 15 };
}

impl Identities {
    /// No identity was told.
    pub fn new(alloc: Global) -> Result<Identities, OutOfMemory>
        ensures { IfOk result (λ i. i ≡ nowhere) }
    {
        let mut list = Vec::with_capacity(alloc, MOST_PLACES)?;
        for at in 0..MOST_PLACES {
            let _ = at;
            list.push_reserved(None);
        }
        Ok(Identities { list })
    }

    /// They after an act.
    pub fn note(&mut self, act: &Act)
        ensures { self.new ≡ identities_after (Told act.now) self.old }
    {
        if let Act::Identified {
            place,
            model,
            serial,
            sectors,
            depth,
        } = act
        {
            self.list[place.get() as usize] = Some(IdentityTold {
                model: copy_model(model),
                serial: copy_serial(serial),
                sectors: *sectors,
                depth: *depth,
            });
        }
    }

    /// What was told of a place, lent.
    pub fn get(&self, place: Place) -> &Option<IdentityTold>
        ensures value { result.now ≡ slice_index_or self.now place None }
    {
        &self.list[place.get() as usize]
    }
}

/// The same model name once more.
fn copy_model(model: &ModelName) -> ModelName
    ensures { result ≡ model.now }
{
    match ModelName::of(model.bytes()) {
        Some(same) => same,
        None => unreachable!(),
    }
}

/// The same serial number once more.
fn copy_serial(serial: &SerialName) -> SerialName
    ensures { result ≡ serial.now }
{
    match SerialName::of(serial.bytes()) {
        Some(same) => same,
        None => unreachable!(),
    }
}

/// No drive.
pub fn no_drives() -> DriveNumbers
    ensures { result ≡ nowhere }
{
    [None; MOST_PLACES]
}

/// The drives that gave the last identities, after an act.
pub fn note_identified_by(by: &mut DriveNumbers, act: &Act, links: &Links)
    ensures { by.new ≡ identified_by_after (Told act.now) links.now by.old }
{
    if let Act::Identified { place, .. } = act {
        by[place.get() as usize] = linked_at(links, *place);
    }
}

/// Whether the drives would answer, by place, after an act.
pub fn note_ident_answered(
    answered: &mut [bool; MOST_PLACES],
    act: &Act,
    links: &Links,
    drives: &DriveList,
)
    ensures { answered.new ≡ ident_answered_after (Told act.now) links.now drives.now.list answered.old }
{
    match act {
        Act::IdentAsked { place, .. } => {
            answered[place.get() as usize] = drives.answers(linked_at(links, *place));
        }
        Act::Unplugged { place } => answered[place.get() as usize] = false,
        _ => {}
    }
}
