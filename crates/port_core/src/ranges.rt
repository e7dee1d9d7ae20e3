ghost use Rattle.std.specs.Prelude.{◌≡◌};
ghost use Rattle.ata_trace.specs.Ranges.{IsFault, IsOp};
ghost use Rattle.ata_trace.specs.ScriptRanges.{IsScriptFault, IsScriptOp};
ghost use Rattle.port_rules.specs.Ranges.{IsScriptStep};

use crate::number_ranges::{
    allowance_in_range, drive_in_range, id_in_range, pick_in_range, place_in_range, tag_in_range,
    tick_in_range, wait_in_range,
};
use ata_base::{Fault, Op};
use ata_trace::{ScriptFault, ScriptOp, Step};

/// Each step is one that a script can have: its numbers are in the ranges of their types. It changes nothing.
pub fn in_range(step: &Step)
    ensures { IsScriptStep step.now }
{
    match step {
        Step::Submit {
            id,
            place,
            op,
            allow,
            wait,
        } => {
            id_in_range(*id);
            place_in_range(*place);
            op_in_range(*op);
            allowance_in_range(*allow);
            wait_in_range(*wait);
        }
        Step::Kick { place } => place_in_range(*place),
        Step::Work { place, pick } => {
            place_in_range(*place);
            pick_in_range(*pick);
        }
        Step::Irq => {}
        Step::Drop => {}
        Step::Stray { tag } => tag_in_range(*tag),
        Step::Tick { ms } => tick_in_range(*ms),
        Step::Expire => {}
        Step::Recover => {}
        Step::Plug { place, drive } => {
            place_in_range(*place);
            drive_in_range(*drive);
        }
        Step::Unplug { place } => place_in_range(*place),
        Step::Inject { place, fault } => {
            place_in_range(*place);
            fault_in_range(*fault);
        }
        Step::Boot => {}
    }
}

// An operation.
#[tactic(auto, using(crate::proofs::NumberRanges::is_in))]
fn op_in_range(op: ScriptOp)
    ensures numbers { IsOp op }
    ensures sectors { IsScriptOp op }
{
    match op.get() {
        Op::Read { .. } => {}
        Op::Write { .. } => {}
        Op::Verify { .. } => {}
        Op::Flush => {}
        Op::Power => {}
    }
}

// A fault.
#[tactic(auto, using(crate::proofs::NumberRanges::is_in))]
fn fault_in_range(fault: ScriptFault)
    ensures numbers { IsFault fault }
    ensures times { IsScriptFault fault }
{
    match fault.get() {
        Fault::Media { .. } => {}
        _ => {}
    }
}
