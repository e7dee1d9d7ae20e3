use crate::script_fault::ScriptFault;
use crate::script_op::ScriptOp;
use ata_base::{Allowance, CmdId, DriveNo, Pick, Place, Tag, Tick, Wait};

/// What a port is asked to do. The fields are the words of the step, in order, and every number is
/// in the range that a script has for it.
#[derive(Clone, Copy, Debug, PartialEq, Eq)]
pub enum Step {
    /// `submit C X OP A W`: take a command for the device at a place. OP is `read L K`, `write L K V`,
    /// `verify L K`, `flush` or `power`.
    Submit {
        id: CmdId,
        place: Place,
        op: ScriptOp,
        allow: Allowance,
        wait: Wait,
    },
    /// `kick X`: issue the command at the front of a place's queue.
    Kick {
        place: Place,
    },
    /// `work X I`: let the drive at a place work on one of the commands that it holds.
    Work {
        place: Place,
        pick: Pick,
    },
    /// `irq`: serve the interrupt.
    Irq,
    /// `drop`: lose the interrupt.
    Drop,
    /// `stray T`: an interrupt comes without cause, of a tag.
    Stray {
        tag: Tag,
    },
    /// `tick MS`: time passes, in milliseconds.
    Tick {
        ms: Tick,
    },
    /// `expire`: the timer runs.
    Expire,
    /// `recover`: recovery makes its next step.
    Recover,
    /// `plug X D`: a drive is plugged at a place.
    Plug {
        place: Place,
        drive: DriveNo,
    },
    /// `unplug X`: the drive at a place is unplugged.
    Unplug {
        place: Place,
    },
    /// `inject X F`: a fault is put in. F is `media L`, one of `hang`, `icrc`, `abort`, `df`,
    /// `badstat`, `idnf`, `logfail`, `logsum`, `lognq`, `logidle` and `identfail` with how often, or
    /// `serr B` with B one of `data`, `persist`, `proto`, `internal`, `phy` and `exch`.
    Inject {
        place: Place,
        fault: ScriptFault,
    },
    /// `boot`: start. No script has it, and the boot entry alone has this step.
    Boot,
}
