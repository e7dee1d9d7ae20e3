ghost use Rattle.std.specs.Prelude.{◌≡◌, codes, [], ◌∷◌};
ghost use Rattle.ata_trace.specs.Parts.{first};
ghost use Rattle.ata_trace.specs.Reading.{number_in};
ghost use Rattle.ata_script.specs.Fields.{among};
ghost use Rattle.ata_script.specs.Fields.Field.{Number};
ghost use Rattle.ata_script.specs.Forms.{kick_form, work_form, stray_form, tick_form, plug_form, unplug_form, an_actor, a_port, a_place};
ghost use Rattle.ata_script.specs.Taking.{taken, after, behind, step_for, step_form_of, other_step, other_form_for, kick_step, work_step, stray_step, tick_step, plug_step, unplug_step};
ghost use Rattle.ata_trace.specs.Told.{third};

use crate::fault_words::inject;
use crate::fields::Fields;
use crate::submit_words::submit;
use ata_base::{ActorNo, DriveNo, Pick, Place, PortNo, Tag, Tick};
use ata_trace::Step;

/// Takes the number of an actor.
pub(crate) fn actor_no(fields: &mut Fields<'_>) -> ActorNo
    ensures value { result ≡ number_in 0 31 (first fields.old.rest) }
    ensures state { fields.new ≡ taken an_actor fields.old }
{
    ActorNo::at(fields.number(0, 31) as u8)
}

/// Takes the number of a port.
pub(crate) fn port_no(fields: &mut Fields<'_>) -> PortNo
    ensures value { result ≡ number_in 0 7 (first fields.old.rest) }
    ensures state { fields.new ≡ taken a_port fields.old }
{
    PortNo::at(fields.number(0, 7) as u8)
}

/// Takes a place.
pub(crate) fn place(fields: &mut Fields<'_>) -> Place
    ensures value { result ≡ number_in 0 14 (first fields.old.rest) }
    ensures state { fields.new ≡ taken a_place fields.old }
{
    Place::at(fields.number(0, 14) as u8)
}

/// Takes the number of a drive.
pub(crate) fn drive_no(fields: &mut Fields<'_>) -> DriveNo
    ensures value { result ≡ number_in 0 31 (first fields.old.rest) }
    ensures state { fields.new ≡ taken (Number 0 31) fields.old }
{
    DriveNo::at(fields.number(0, 31) as u8)
}

/// Takes a step, from its name on.
#[tactic(auto, unfolding(crate::specs::Taking::step_for, crate::specs::Taking::step_form_for))]
pub(crate) fn step(fields: &mut Fields<'_>) -> Step
    ensures value { result ≡ step_for fields.old.rest }
    ensures state { fields.new ≡ after (step_form_of fields.old.rest) fields.old }
{
    if fields.take(b"submit") {
        submit(fields)
    } else if fields.take(b"kick") {
        kick(fields)
    } else if fields.take(b"work") {
        work(fields)
    } else if fields.take(b"irq") {
        Step::Irq
    } else if fields.take(b"tick") {
        tick(fields)
    } else if fields.take(b"expire") {
        Step::Expire
    } else if fields.take(b"recover") {
        Step::Recover
    } else {
        other(fields)
    }
}

// Takes a step of another name.
#[tactic(auto, unfolding(crate::specs::Taking::other_step, crate::specs::Taking::other_form_for))]
fn other(fields: &mut Fields<'_>) -> Step
    ensures value { result ≡ other_step fields.old.rest }
    ensures state { fields.new ≡ after (other_form_for (first fields.old.rest) (third fields.old.rest)) fields.old }
{
    if fields.take(b"drop") {
        Step::Drop
    } else if fields.take(b"stray") {
        stray(fields)
    } else if fields.take(b"plug") {
        plug(fields)
    } else if fields.take(b"unplug") {
        unplug(fields)
    } else {
        inject(fields)
    }
}

// What follows the word `kick`.
fn kick(fields: &mut Fields<'_>) -> Step
    ensures value { result ≡ kick_step (codes "kick" ∷ fields.old.rest) }
    ensures state { fields.new ≡ after (behind kick_form) fields.old }
{
    Step::Kick {
        place: place(fields),
    }
}

// What follows the word `work`.
fn work(fields: &mut Fields<'_>) -> Step
    ensures value { result ≡ work_step (codes "work" ∷ fields.old.rest) }
    ensures state { fields.new ≡ after (behind work_form) fields.old }
{
    Step::Work {
        place: place(fields),
        pick: Pick::at(fields.number(0, 31) as u8),
    }
}

// What follows the word `stray`.
fn stray(fields: &mut Fields<'_>) -> Step
    ensures value { result ≡ stray_step (codes "stray" ∷ fields.old.rest) }
    ensures state { fields.new ≡ after (behind stray_form) fields.old }
{
    Step::Stray {
        tag: Tag::at(fields.number(0, 31) as u8),
    }
}

// What follows the word `tick`.
fn tick(fields: &mut Fields<'_>) -> Step
    ensures value { result ≡ tick_step (codes "tick" ∷ fields.old.rest) }
    ensures state { fields.new ≡ after (behind tick_form) fields.old }
{
    Step::Tick {
        ms: Tick::at(fields.number(0, 1_000_000)),
    }
}

// What follows the word `plug`.
fn plug(fields: &mut Fields<'_>) -> Step
    ensures value { result ≡ plug_step (codes "plug" ∷ fields.old.rest) }
    ensures state { fields.new ≡ after (behind plug_form) fields.old }
{
    Step::Plug {
        place: place(fields),
        drive: drive_no(fields),
    }
}

// What follows the word `unplug`.
fn unplug(fields: &mut Fields<'_>) -> Step
    ensures value { result ≡ unplug_step (codes "unplug" ∷ fields.old.rest) }
    ensures state { fields.new ≡ after (behind unplug_form) fields.old }
{
    Step::Unplug {
        place: place(fields),
    }
}
