ghost use Rattle.std.specs.Prelude.{◌≡◌, ◌<◌, ◌∷◌, [], false, IfNone, IsTrue};
ghost use Rattle.ata_trace.specs.declared.act.Act.TheVariants.{Refused};
ghost use Rattle.port_ledger.specs.Commands.{AsksForFew};
ghost use Rattle.port_ledger.specs.LedgerView.{past};
ghost use Rattle.port_past.specs.Commands.{commands, is_accepted};
ghost use Rattle.port_past.specs.Steps.{last_step};
ghost use Rattle.port_rules.specs.Submit.{has_count, is_on_device, refusal_of, submit_acts};
ghost use Rattle.port_telling.specs.Adds.{Adds};
ghost use Rattle.port_steps.specs.Asked.{IsAskedFor};

use ata_base::{CmdId, Op, Place};
use ata_trace::{Act, Refusal};
use port_ledger::Ledger;

/// The most sectors that a command may ask for.
const MOST_SECTORS: u16 = 16;

/// A command is accepted, or refused for the first reason that holds.
pub fn submit(ledger: &mut Ledger, id: CmdId, place: Place, op: &Op)
    requires room { 0 < ledger.old.room }
    requires asked { IsAskedFor op.now (last_step (past ledger.old)) }
    ensures { Adds ledger.old ledger.new (submit_acts (past ledger.old) id place op.now) }
{
    match refusal_of(ledger, id, place, op) {
        Some(why) => refuse(ledger, id, why),
        None => ledger.note(Act::Accepted { id }),
    }
}

fn refuse(ledger: &mut Ledger, id: CmdId, why: Refusal)
    requires room { 0 < ledger.old.room }
    ensures { Adds ledger.old ledger.new (Refused id why ∷ []) }
{
    ledger.note(Act::Refused { id, why });
}

/// The first reason to refuse a command. Where there is none, its number is new, and it asks for few sectors.
fn refusal_of(ledger: &Ledger, id: CmdId, place: Place, op: &Op) -> Option<Refusal>
    ensures value { result ≡ refusal_of (past ledger.now) id place op.now }
    ensures few { IfNone result (AsksForFew op.now) }
    ensures new { IfNone result (is_accepted id (commands (past ledger.now)) ≡ false) }
{
    if ledger.is_accepted(id) {
        Some(Refusal::SameId)
    } else if !ledger.is_attached(place) {
        Some(Refusal::NoDevice)
    } else if !has_count(op) {
        Some(Refusal::BadCount)
    } else if !is_on_device(op, ledger.sectors(place)) {
        Some(Refusal::BadRange)
    } else {
        None
    }
}

/// Whether a command asks for 1 to 16 sectors, where it asks for any.
fn has_count(op: &Op) -> bool
    ensures value { result ≡ has_count op.now }
    ensures few { IsTrue result → AsksForFew op.now }
{
    match op {
        Op::Read { count, .. } | Op::Write { count, .. } | Op::Verify { count, .. } => {
            *count >= 1 && *count <= MOST_SECTORS
        }
        Op::Flush | Op::Power => true,
    }
}

/// Whether the sectors of a command are all on a device with so many.
fn is_on_device(op: &Op, sectors: u64) -> bool
    ensures { result ≡ is_on_device op.now sectors }
{
    match op {
        Op::Read { lba, count } | Op::Write { lba, count, .. } | Op::Verify { lba, count } => {
            u64::from(*count) <= sectors && *lba <= sectors - u64::from(*count)
        }
        Op::Flush | Op::Power => true,
    }
}
