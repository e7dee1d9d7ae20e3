ghost use Rattle.std.specs.Prelude.{◌≡◌, ◌≤◌, ◌<◌, ◌^◌, ◌∷◌};
ghost use Rattle.ata_trace.specs.declared.act.Act.TheVariants.{Done};
ghost use Rattle.port_ledger.specs.LedgerView.{past};
ghost use Rattle.port_rules.specs.Told.{raised_acts};
ghost use Rattle.port_rules.specs.Work.{work_acts};
ghost use Rattle.port_telling.specs.Adds.{Adds};

use ata_base::{IssueNo, Pick, Place, Regs};
use ata_trace::Act;
use port_ledger::Ledger;
use port_telling::{nothing, raise};

/// The drive that is linked at a place ends the issue that it works on, and the line goes up.
pub fn work(ledger: &mut Ledger, place: Place, pick: Pick)
    requires room { 2 ≤ ledger.old.room }
    ensures { Adds ledger.old ledger.new (work_acts ledger.old.head (past ledger.old) place pick) }
{
    let drive = match ledger.drive(place) {
        Some(drive) => drive,
        None => {
            nothing(ledger);
            return;
        }
    };
    let issue = match drive.picked(pick.get()) {
        Some(issue) => issue,
        None => {
            nothing(ledger);
            return;
        }
    };
    let regs = drive.cause(&issue).registers(&issue.op);
    end(ledger, issue.number, &regs);
}

/// A drive ends an issue with these registers, and the line goes up.
#[tactic(auto, using(port_telling::proofs::AddLemmas::adds_act, port_telling::proofs::AddLemmas::adds_more))]
fn end(ledger: &mut Ledger, number: IssueNo, regs: &Regs)
    requires room { 2 ≤ ledger.old.room }
    requires low { regs.now.lba < 2 ^ 48 }
    ensures { Adds ledger.old ledger.new (Done number regs.now.status regs.now.error regs.now.lba regs.now.count ∷ raised_acts (past ledger.old)) }
{
    ledger.note(Act::Done {
        number,
        status: regs.status,
        error: regs.error,
        lba: regs.lba,
        count: regs.count,
    });
    raise(ledger);
}
