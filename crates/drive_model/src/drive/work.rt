ghost use Rattle.std.specs.Prelude.{◌≡◌, ◌+◌, ◌<◌, ◌^◌, Some, IfSome};
ghost use Rattle.drive_model.specs.Holding.{issue_of, picked};
ghost use Rattle.drive_model.specs.Sectors.{IsShort, stamps_read};
ghost use Rattle.drive_model.specs.Told.{is_good_end, stopped_by, ended_with, with_done};
ghost use Rattle.drive_model.specs.View.{freed};
ghost use Rattle.drive_model.specs.Work.{cause_of, registers_of, stamps_given, finished, worked, act_of};

use super::Drive;
use crate::act::DriveAct;
use crate::assigned::Assigned;
use crate::cause::Cause;
use crate::held::Held;
use crate::outcome::Outcome;
use crate::queued_error::QueuedError;
use ata_base::{IssueNo, Op, Regs, Stamps};

impl Drive {
    /// Works on one of the issues that it holds without a hang, in the order of issue the one at place `pick`, counted
    /// round, and tells how it ended. `Idle` exactly where there is none or the drive is stopped; then nothing changes.
    ///
    /// The first cause that fits: the failure that was assigned to it; for a read or verify the least bad sector; else
    /// it ends well. Then a write stores its stamp and makes its sectors good, and a read gives the stamps as they are.
    /// A queued issue that doesn't end well stops the drive.
    pub fn work(&mut self, pick: u8) -> DriveAct
        ensures act { result ≡ act_of (picked pick self.old.drive) self.old.drive }
        ensures drive { self.new.drive ≡ worked (picked pick self.old.drive) self.old.drive }
        ensures spare { self.new.spare ≡ self.old.spare + freed self.old.drive self.new.drive }
    {
        match self.picked(pick) {
            None => DriveAct::Idle,
            Some(issue) => {
                let outcome = self.outcome(&issue);
                self.end(&issue);
                DriveAct::Finished {
                    n: issue.number,
                    tag: issue.tag,
                    queued: issue.queued,
                    regs: outcome.regs,
                    stamps: outcome.stamps,
                }
            }
        }
    }

    /// The issue that it would work on with this pick, `None` exactly where `work` is idle.
    pub fn picked(&self, pick: u8) -> Option<Held>
        ensures value { result ≡ picked pick self.now.drive }
        ensures short { IfSome result (λ h. IsShort h.op) }
    {
        self.holding.picked(pick, &self.stopped)
    }

    /// The issue of this number that it holds, `None` exactly where it holds none.
    pub fn issue(&self, n: IssueNo) -> Option<Held>
        ensures value { result ≡ issue_of n.n self.now.drive.held }
        ensures short { IfSome result (λ h. IsShort h.op) }
    {
        self.holding.issue(n)
    }

    /// With what an issue would end now: its registers and, of a good read, the stamps of its sectors, at most 16.
    pub fn outcome(&self, issue: &Held) -> Outcome
        requires { IsShort issue.now.op }
        ensures regs { result.regs ≡ registers_of (cause_of issue.now self.now.drive.bad) issue.now.op }
        ensures stamps { result.stamps
            ≡ stamps_given (cause_of issue.now self.now.drive.bad) issue.now.op self.now.drive.stamps }
    {
        let cause = self.cause(issue);
        let stamps = if cause.is_good() {
            self.sectors.read(&issue.op)
        } else {
            Stamps::new()
        };
        Outcome {
            regs: cause.registers(&issue.op),
            stamps,
        }
    }

    /// The stamps that an operation would read now: those of a read's sectors, and none for every other operation.
    pub fn stamps(&self, op: &Op) -> Stamps
        requires { IsShort op.now }
        ensures { result ≡ stamps_read op.now self.now.drive.stamps }
    {
        self.sectors.read(op)
    }

    /// Ends the held issue of this number, as `outcome` tells: it isn't held any more; a good write stores its stamp and
    /// makes its sectors good; a queued one that doesn't end well stops the drive. Where it holds none of this number,
    /// nothing changes.
    pub fn finish(&mut self, n: IssueNo)
        ensures drive { self.new.drive ≡ worked (issue_of n.n self.old.drive.held) self.old.drive }
        ensures spare { self.new.spare ≡ self.old.spare + freed self.old.drive self.new.drive }
    {
        if let Some(issue) = self.issue(n) {
            self.end(&issue);
        }
    }

    /// It was told that the held issue of this number ended with these registers, whose lba is below 2^48: the same as
    /// `finish`, by what was told. Where it holds none of this number, nothing changes.
    pub fn done(&mut self, n: IssueNo, regs: &Regs)
        requires { regs.now.lba < 2 ^ 48 }
        ensures drive { self.new.drive ≡ with_done n.n regs.now self.old.drive }
        ensures spare { self.new.spare ≡ self.old.spare + freed self.old.drive self.new.drive }
    {
        if let Some(issue) = self.issue(n) {
            self.close(&issue, regs);
        }
    }

    /// The cause with which an issue would end now.
    pub fn cause(&self, issue: &Held) -> Cause
        ensures value { result ≡ cause_of issue.now self.now.drive.bad }
        ensures lba { (registers_of result issue.now.op).lba < 2 ^ 48 }
    {
        if let Assigned::Fails { failure } = issue.assigned {
            return Cause::Failed { failure };
        }
        match issue.op {
            Op::Read { lba, count } | Op::Verify { lba, count } => {
                match self.sectors.least_bad(lba, count) {
                    Some(lba) => Cause::BadSector { lba },
                    None => Cause::Good,
                }
            }
            _ => Cause::Good,
        }
    }

    #[tactic(auto, using(crate::proofs::Told::finished_told))]
    fn end(&mut self, issue: &Held)
        ensures drive { self.new.drive ≡ finished issue.now self.old.drive }
        ensures spare { self.new.spare ≡ self.old.spare + freed self.old.drive self.new.drive }
    {
        let regs = self.cause(issue).registers(&issue.op);
        self.close(issue, &regs);
    }

    fn close(&mut self, issue: &Held, regs: &Regs)
        requires { regs.now.lba < 2 ^ 48 }
        ensures drive { self.new.drive ≡ ended_with regs.now (Some issue.now) self.old.drive }
        ensures spare { self.new.spare ≡ self.old.spare + freed self.old.drive self.new.drive }
    {
        let good = is_good_end(regs);
        self.sectors.store(&issue.op, good);
        self.stopped = stopped_by(issue, regs, good, &self.stopped);
        self.holding.remove(issue.number);
    }
}

/// Whether registers tell a good end.
fn is_good_end(regs: &Regs) -> bool
    ensures { result ≡ is_good_end regs.now.status regs.now.error regs.now.lba }
{
    regs.status == 0x40 && regs.error == 0 && regs.lba == 0
}

/// What stops the drive once an issue has ended, well or not, with these registers: its end, if it is a queued one and
/// doesn't end well, else what stopped it before.
fn stopped_by(
    issue: &Held,
    regs: &Regs,
    good: bool,
    was: &Option<QueuedError>,
) -> Option<QueuedError>
    requires lba { regs.now.lba < 2 ^ 48 }
    requires before { IfSome was.now (λ e. e.regs.lba < 2 ^ 48) }
    ensures value { result ≡ stopped_by issue.now regs.now good was.now }
    ensures lba { IfSome result (λ e. e.regs.lba < 2 ^ 48) }
{
    if issue.queued && !good {
        Some(QueuedError {
            tag: issue.tag,
            regs: *regs,
        })
    } else {
        *was
    }
}
