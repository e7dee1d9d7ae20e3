ghost use Rattle.std.specs.Prelude.{◌≡◌, ◌<◌, ◌≤◌};
ghost use Rattle.ata_trace.specs.Entries.{grown};
ghost use Rattle.port_ledger.specs.LedgerView.{past};
ghost use Rattle.port_recovery.specs.Recoverable.{IsRecoverable};
ghost use Rattle.port_rules.specs.Legal.{entry_after};

use crate::interrupt::irq;
use crate::kick::kick;
use crate::submit::submit;
use crate::work::work;
use ata_trace::{Step, Who};
use port_faults::{expire, inject, lose, plug, stray, tick, unplug};
use port_ledger::Ledger;
use port_recovery::recover;
use port_telling::nothing;

/// Makes the entry of a step.
pub fn act(ledger: &mut Ledger, who: Who, seq: u64, step: &Step)
    requires begins { 0 < ledger.old.begins }
    requires reached { IsRecoverable ledger.old.head (past ledger.old) }
    ensures past { past ledger.new ≡ grown (past ledger.old) (entry_after ledger.old.head (past ledger.old) who seq step.now) }
    ensures head { ledger.new.head ≡ ledger.old.head }
{
    if let Step::Irq = step {
        irq(ledger, who, seq);
        return;
    }
    ledger.begin(who, seq, step);
    match step {
        Step::Submit { id, place, op, .. } => submit(ledger, *id, *place, &op.get()),
        Step::Kick { place } => kick(ledger, *place),
        Step::Work { place, pick } => work(ledger, *place, *pick),
        Step::Drop => lose(ledger),
        Step::Stray { .. } => stray(ledger),
        Step::Tick { ms } => tick(ledger, *ms),
        Step::Expire => expire(ledger),
        Step::Recover => recover(ledger),
        Step::Plug { place, drive } => plug(ledger, *place, *drive),
        Step::Unplug { place } => unplug(ledger, *place),
        Step::Inject { place, fault } => inject(ledger, *place, &fault.get()),
        Step::Boot => nothing(ledger),
        Step::Irq => unreachable!(),
    }
}
