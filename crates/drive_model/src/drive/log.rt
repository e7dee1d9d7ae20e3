ghost use Rattle.std.specs.Prelude.{◌≡◌, ◌+◌, option_map};
ghost use Rattle.drive_model.specs.Log.{log_fault_of, log_said, after_log, answers_asking, identity_said, after_asking};
ghost use Rattle.drive_model.specs.Told.{log_read, reading_of};
ghost use Rattle.drive_model.specs.View.{freed};

use super::Drive;
use crate::log_fault::LogFault;
use crate::log_page;
use crate::log_told::LogTold;
use crate::queued_error::QueuedError;
use ata_base::Tag;

impl Drive {
    /// Reads the error log of a stopped drive (ACS-3, NCQ Command Error log), `idle` the least tag that isn't in
    /// flight: the page of the tag and registers that stopped it. Then it holds nothing and isn't stopped any more.
    ///
    /// The first of four faults whose count isn't 0 applies, and that count falls by 1. logfail: `None`, and the drive
    /// stays stopped and keeps what it holds. logsum: byte 511 is one more. lognq: NQ is 1. logidle: the tag is `idle`;
    /// it doesn't apply where that is `None`. Where the drive isn't stopped, `None`, and nothing changes.
    pub fn read_log(&mut self, idle: Option<Tag>) -> Option<[u8; 512]>
        ensures page { result ≡ log_said self.old.drive.stopped self.old.drive.counts idle }
        ensures drive { self.new.drive ≡ after_log self.old.drive.stopped idle self.old.drive }
        ensures spare { self.new.spare ≡ self.old.spare + freed self.old.drive self.new.drive }
    {
        let tag = idle;
        let page = self.log_page(tag);
        self.log_asked(idle);
        page
    }

    /// The fault of the next reading of the error log, `idle` the least tag that isn't in flight: the first of logfail,
    /// logsum, lognq and logidle that is still to come. Where each tag is in flight logidle doesn't apply.
    pub fn log_fault(&self, idle: Option<Tag>) -> Option<LogFault>
        ensures { result ≡ log_fault_of self.now.drive.counts idle }
    {
        self.counts.log_fault(idle)
    }

    /// The page that `read_log` would give, with the same faults; nothing changes.
    pub fn log_page(&self, idle: Option<Tag>) -> Option<[u8; 512]>
        ensures { result ≡ log_said self.now.drive.stopped self.now.drive.counts idle }
    {
        match self.stopped {
            Some(error) => log_page::page_with(&self.counts.log_fault(idle), &error),
            None => None,
        }
    }

    /// The log was asked for: the drive is as `read_log` leaves it.
    #[tactic(auto, using(crate::proofs::Told::reading_told))]
    pub fn log_asked(&mut self, idle: Option<Tag>)
        ensures drive { self.new.drive ≡ after_log self.old.drive.stopped idle self.old.drive }
        ensures spare { self.new.spare ≡ self.old.spare + freed self.old.drive self.new.drive }
    {
        let tag = idle;
        if let Some(told) = self.reading(tag) {
            self.log_told(idle, &told);
        }
    }

    /// What a reading of the log would tell, `None` where the drive isn't stopped.
    fn reading(&self, idle: Option<Tag>) -> Option<LogTold>
        ensures { result ≡ option_map (λ e. reading_of e (log_fault_of self.now.drive.counts idle)) self.now.drive.stopped }
    {
        match self.stopped {
            Some(error) => Some(reading_of(&error, &self.counts.log_fault(idle))),
            None => None,
        }
    }

    /// It was told what a reading of the log said, `idle` the least tag that wasn't in flight: the same as `log_asked`,
    /// by what was told. With a page, good or bad, it holds nothing and isn't stopped any more.
    pub fn log_told(&mut self, idle: Option<Tag>, told: &LogTold)
        ensures drive { self.new.drive ≡ log_read idle told.now self.old.drive }
        ensures spare { self.new.spare ≡ self.old.spare + freed self.old.drive self.new.drive }
    {
        if self.stopped.is_some() {
            let fault = self.counts.log_fault(idle);
            self.counts.lower_log(fault);
        }
        if !matches!(told, LogTold::NoPage) {
            self.drop_held();
        }
    }

    /// Asks it who it is: the page of its identity (ACS-3, IDENTIFY DEVICE). `None` exactly where the count of
    /// identfail isn't 0; then that count falls by 1.
    pub fn ask_identity(&mut self) -> Option<[u8; 512]>
        ensures page { result ≡ identity_said self.old.drive }
        ensures drive { self.new ≡ record self.old { drive = after_asking self.old.drive } }
    {
        let page = self.identity_page();
        self.identity_asked();
        page
    }

    /// The page that `ask_identity` would give; nothing changes.
    pub fn identity_page(&self) -> Option<[u8; 512]>
        ensures { result ≡ identity_said self.now.drive }
    {
        if self.answers() {
            Some(ata_ident::build(&self.identity))
        } else {
            None
        }
    }

    /// Whether it would answer now, if it were asked who it is: no fault of that asking is to come.
    pub fn answers(&self) -> bool
        ensures { result ≡ answers_asking self.now.drive }
    {
        self.counts.ident_fail == 0
    }

    /// It was asked who it is: a count of identfail that isn't 0 falls by 1.
    pub fn identity_asked(&mut self)
        ensures { self.new ≡ record self.old { drive = after_asking self.old.drive } }
    {
        self.counts.ident_fail = self.counts.ident_fail.saturating_sub(1);
    }
}

/// What a reading tells, by the error that stopped the drive and the fault of the reading.
fn reading_of(e: &QueuedError, fault: &Option<LogFault>) -> LogTold
    ensures { result ≡ reading_of e.now fault.now }
{
    match fault {
        None => LogTold::Page {
            tag: e.tag,
            regs: e.regs,
        },
        Some(LogFault::Fail) => LogTold::NoPage,
        Some(LogFault::Sum | LogFault::NotQueued) => LogTold::BadPage,
        Some(LogFault::Idle { tag }) => LogTold::Page {
            tag: *tag,
            regs: e.regs,
        },
    }
}
