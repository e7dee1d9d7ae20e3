ghost use Rattle.std.specs.Prelude.{◌≡◌, ◌+◌, ◌<◌, ◌^◌, ◌&&◌, false, not};
ghost use Rattle.ata_base.specs.Operations.{is_data};
ghost use Rattle.ata_trace.specs.Event.Event.{Told};
ghost use Rattle.port_past.specs.Doubt.{dubious_after, but_trusted};
ghost use Rattle.port_past.specs.Lowerings.{lowerings_after, ncq_ended_after};
ghost use Rattle.port_past.specs.Modes.{udmas_after, ncq_on_after};
ghost use Rattle.port_past.specs.Places.{changed_at, everywhere};
ghost use Rattle.port_ledger.specs.Parts.{AreAtMost};

use crate::attachments::{Counts, count};
use crate::command_table::CommandTable;
use ata_base::{Cmd, MOST_PLACES, SpeedAction};
use ata_trace::Act;

/// By place: the UDMA mode and whether NCQ is on, as the last mode told, and whether the device is dubious; how often
/// the mode was lowered, and whether NCQ was ended, since the device was attached.
#[derive(Drop)]
pub struct Modes {
    pub udmas: [u8; MOST_PLACES],
    pub ncq_on: [bool; MOST_PLACES],
    pub dubious: [bool; MOST_PLACES],
    pub lowerings: Counts,
    pub ncq_ended: [bool; MOST_PLACES],
}

impl Modes {
    /// No mode was told, and none lowered.
    pub fn new() -> Modes
        ensures udmas { result.udmas ≡ everywhere 0 }
        ensures ncq_on { result.ncq_on ≡ everywhere false }
        ensures dubious { result.dubious ≡ everywhere false }
        ensures lowerings { result.lowerings ≡ everywhere 0 }
        ensures ncq_ended { result.ncq_ended ≡ everywhere false }
    {
        Modes {
            udmas: [0; MOST_PLACES],
            ncq_on: [false; MOST_PLACES],
            dubious: [false; MOST_PLACES],
            lowerings: [0; MOST_PLACES],
            ncq_ended: [false; MOST_PLACES],
        }
    }
}

/// The modes after an act, where no count was above `most`.
#[tactic(auto, using(crate::proofs::CountLemmas::still_at_most))]
pub fn note_modes(modes: &mut Modes, act: &Act, commands: &CommandTable, most: u64)
    requires room { most + 1 < 2 ^ 64 }
    requires most { AreAtMost most modes.old.lowerings }
    ensures udmas { modes.new.udmas ≡ udmas_after (Told act.now) modes.old.udmas }
    ensures ncq_on { modes.new.ncq_on ≡ ncq_on_after (Told act.now) modes.old.ncq_on }
    ensures dubious { modes.new.dubious ≡ dubious_after (Told act.now) commands.now.list modes.old.dubious }
    ensures lowerings { modes.new.lowerings ≡ lowerings_after (Told act.now) modes.old.lowerings }
    ensures most { AreAtMost (most + 1) modes.new.lowerings }
    ensures ncq_ended { modes.new.ncq_ended ≡ ncq_ended_after (Told act.now) modes.old.ncq_ended }
{
    match act {
        // Most acts tell nothing of modes.
        Act::Accepted { .. } | Act::Issued { .. } | Act::Done { .. } | Act::Raised => {}
        _ => {
            note_udmas(&mut modes.udmas, act);
            note_ncq_on(&mut modes.ncq_on, act);
            note_doubt(&mut modes.dubious, act, commands);
            note_lowerings(&mut modes.lowerings, act, most);
            note_ncq_ended(&mut modes.ncq_ended, act);
        }
    }
}

fn note_udmas(udmas: &mut [u8; MOST_PLACES], act: &Act)
    ensures { udmas.new ≡ udmas_after (Told act.now) udmas.old }
{
    if let Act::Mode { place, udma, .. } = act {
        udmas[place.get() as usize] = *udma;
    }
}

fn note_ncq_on(ncq_on: &mut [bool; MOST_PLACES], act: &Act)
    ensures { ncq_on.new ≡ ncq_on_after (Told act.now) ncq_on.old }
{
    if let Act::Mode { place, ncq, .. } = act {
        ncq_on[place.get() as usize] = *ncq;
    }
}

/// Whether the devices are dubious, by place, after an act.
#[inline(always)]
pub fn note_doubt(doubts: &mut [bool; MOST_PLACES], act: &Act, commands: &CommandTable)
    ensures { doubts.new ≡ dubious_after (Told act.now) commands.now.list doubts.old }
{
    match act {
        Act::Mode { place, dubious, .. } => doubts[place.get() as usize] = *dubious,
        Act::AnsweredOk { id, .. } => {
            if let Some(cmd) = commands.get(*id) {
                trust(doubts, &cmd);
            }
        }
        _ => {}
    }
}

/// A command that moved data well ends the doubt of its place.
#[tactic(auto, using(crate::proofs::ListLemmas::changed_flag))]
fn trust(doubts: &mut [bool; MOST_PLACES], cmd: &Cmd)
    ensures { doubts.new ≡ changed_at cmd.now.place (λ d. d && not (is_data cmd.now.op)) doubts.old }
{
    let at = cmd.place.get() as usize;
    doubts[at] = doubts[at] && !cmd.op.is_data();
}

#[tactic(auto, using(crate::proofs::CountLemmas::still_at_most, crate::proofs::CountLemmas::zero_at_most))]
fn note_lowerings(lowerings: &mut Counts, act: &Act, most: u64)
    requires room { most + 1 < 2 ^ 64 }
    requires most { AreAtMost most lowerings.old }
    ensures value { lowerings.new ≡ lowerings_after (Told act.now) lowerings.old }
    ensures most { AreAtMost (most + 1) lowerings.new }
{
    match act {
        Act::Attached { place } => lowerings[place.get() as usize] = 0,
        Act::Recorded { place, action, .. } => {
            if let SpeedAction::Mode { .. } = action {
                count(lowerings, *place, most);
            }
        }
        _ => {}
    }
}

fn note_ncq_ended(ended: &mut [bool; MOST_PLACES], act: &Act)
    ensures { ended.new ≡ ncq_ended_after (Told act.now) ended.old }
{
    match act {
        Act::Attached { place } => ended[place.get() as usize] = false,
        Act::Recorded { place, action, .. } => {
            if let SpeedAction::NcqOff = action {
                ended[place.get() as usize] = true;
            }
        }
        _ => {}
    }
}
