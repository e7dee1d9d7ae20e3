ghost use Rattle.std.specs.Prelude.{◌≡◌, ◌+◌, ◌<◌, ◌≤◌, ◌^◌, ℕ, length, map, slice_get, option_and_then, option_map, IfOk, OnOk};
ghost use Rattle.std.specs.Option.{option_copied};
ghost use Rattle.ata_base.specs.declared.fault.Fault.TheVariants.{Serr};
ghost use Rattle.ata_script.specs.declared.drive_head.DriveHead.{DriveHead as HeadOf};
ghost use Rattle.drive_model.specs.FreshAndReset.{fresh, emptied, reset_at};
ghost use Rattle.drive_model.specs.Holding.{taken};
ghost use Rattle.drive_model.specs.Inject.{injected};
ghost use Rattle.drive_model.specs.Log.{after_asking};
ghost use Rattle.drive_model.specs.Sectors.{IsShort};
ghost use Rattle.drive_model.specs.Told.{with_done, log_read};
ghost use Rattle.port_past.specs.Completions.{worker_stamps, stamps_of};
ghost use Rattle.port_past.specs.IdentAnswers.{answers_ident};
ghost use Rattle.port_past.specs.Places.{changed_at_some};
ghost use Rattle.port_ledger.specs.DriveParts.{AreQuick, AreRoomy, RoomyUpTo, TakesFault, drive_in, drive_of};

use crate::command_queues::MORE;
use ata_base::{DriveNo, Fault, IssueNo, Ms, Op, OutOfMemory, Regs, Stamps, Tag};
use ata_script::DriveHead;
use drive_model::{Drive, LogTold};
use std::alloc::Global;
use std::marker::Model;

/// The drives of a port, by number, each with memory for so many issues more.
#[derive(Drop)]
pub struct DriveList {
    list: Vec<Drive>,
    room: usize,
}

impl Model for DriveList {
    ghost use Rattle.std.specs.Prelude.{map};
    ghost use Rattle.port_ledger.specs.DriveParts.{AreRoomy, AreQuick, DriveListView, drive_of};

    ghost Value = { DriveListView };

    ghost view = { λ d. record { list = map drive_of d.list.items; room = d.room } };

    ghost invariant = { λ d. AreRoomy d.room d.list.items × AreQuick d.list.items };
}

impl DriveList {
    /// The drives of these heads, as they begin.
    #[tactic(auto, using(crate::proofs::DriveLemmas::drives_more, crate::proofs::DriveLemmas::AreQuick_push, crate::proofs::DriveLemmas::AreQuick_none, crate::proofs::DriveLemmas::AreRoomy_none))]
    pub fn new(alloc: Global, heads: &[DriveHead]) -> Result<DriveList, OutOfMemory>
        ensures { IfOk result (λ d. d.list ≡ map (λ (h : HeadOf). fresh h.identity h.ready) heads.now) }
    {
        let mut list = Vec::with_capacity(alloc, heads.len())?;
        for head in heads {
            list.push_reserved(drive_of(alloc, head)?);
        }
        Ok(DriveList { list, room: 0 })
    }

    /// The drive of this number, lent.
    #[tactic(auto, using(crate::proofs::DriveLemmas::drive_there, crate::proofs::DriveLemmas::drive_past))]
    pub fn get(&self, d: Option<DriveNo>) -> Option<&Drive>
        ensures { option_map drive_of (option_copied result) ≡ option_and_then (slice_get self.now.list) d }
    {
        match d {
            Some(d) if (d.get() as usize) < self.list.len() => Some(&self.list[d.get() as usize]),
            _ => None,
        }
    }

    /// Makes room for `more` issues at each drive. The drives stay, also where memory is wanted.
    #[tactic(auto, using(crate::proofs::DriveLemmas::AreRoomy_less))]
    pub fn reserve(&mut self, more: usize) -> Result<(), OutOfMemory>
        ensures list { self.new.list ≡ self.old.list }
        ensures room { OnOk result (more ≤ self.new.room) }
        ensures kept { self.old.room ≤ self.new.room }
    {
        if more <= self.room {
            return Ok(());
        }
        let room = more.saturating_add(MORE);
        reserve_each(&mut self.list, room)?;
        self.room = room;
        Ok(())
    }

    /// The stamps that the drive of this number gives with a good end of an issue that it holds.
    #[tactic(auto, using(crate::proofs::DriveLemmas::given_at, crate::proofs::DriveLemmas::given_past))]
    pub fn stamps(&self, d: Option<DriveNo>, number: IssueNo) -> Stamps
        ensures { result ≡ worker_stamps number.n d self.now.list }
    {
        match d {
            Some(d) if (d.get() as usize) < self.list.len() => {
                stamps_of(&self.list[d.get() as usize], number)
            }
            _ => Stamps::new(),
        }
    }

    /// Whether the drive of this number is there and would answer if it were asked now who it is.
    #[tactic(auto, using(crate::proofs::DriveLemmas::answers_at, crate::proofs::DriveLemmas::answers_past))]
    pub fn answers(&self, d: Option<DriveNo>) -> bool
        ensures { result ≡ answers_ident d self.now.list }
    {
        match d {
            Some(d) if (d.get() as usize) < self.list.len() => {
                self.list[d.get() as usize].answers()
            }
            _ => false,
        }
    }

    /// The drive of this number holds an issue more.
    #[tactic(auto, using(crate::proofs::DriveLemmas::drives_changed, crate::proofs::DriveLemmas::drives_past, crate::proofs::DriveLemmas::AreRoomy_less, crate::proofs::DriveLemmas::AreRoomy_set, crate::proofs::DriveLemmas::AreQuick_set))]
    pub fn hold(&mut self, d: Option<DriveNo>, number: IssueNo, tag: Tag, op: &Op, queued: bool)
        requires room { 0 < self.old.room }
        requires short { IsShort op.now }
        ensures list { self.new.list ≡ changed_at_some d (taken number tag op.now queued) self.old.list }
        ensures room { self.new.room + 1 ≡ self.old.room }
    {
        if let Some(d) = d {
            if (d.get() as usize) < self.list.len() {
                self.list[d.get() as usize].hold(number, tag, op, queued);
            }
        }
        self.room -= 1;
    }

    /// The drive of this number has ended an issue with these registers.
    #[tactic(auto, using(crate::proofs::DriveLemmas::drives_changed, crate::proofs::DriveLemmas::drives_past, crate::proofs::DriveLemmas::AreRoomy_set, crate::proofs::DriveLemmas::AreQuick_set, crate::proofs::DriveLemmas::done_ready))]
    pub fn done(&mut self, d: Option<DriveNo>, number: IssueNo, regs: &Regs)
        requires { regs.now.lba < 2 ^ 48 }
        ensures list { self.new.list ≡ changed_at_some d (with_done number.n regs.now) self.old.list }
        ensures room { self.new.room ≡ self.old.room }
    {
        if let Some(d) = d {
            if (d.get() as usize) < self.list.len() {
                self.list[d.get() as usize].done(number, regs);
            }
        }
    }

    /// The drive of this number was reset at a time.
    #[tactic(auto, using(crate::proofs::DriveLemmas::drives_changed, crate::proofs::DriveLemmas::drives_past, crate::proofs::DriveLemmas::AreRoomy_set, crate::proofs::DriveLemmas::AreQuick_set, crate::proofs::DriveLemmas::quick_at))]
    pub fn reset(&mut self, d: Option<DriveNo>, now: Ms)
        requires { now.n ≤ 2 ^ 62 }
        ensures list { self.new.list ≡ changed_at_some d (reset_at now) self.old.list }
        ensures room { self.new.room ≡ self.old.room }
    {
        if let Some(d) = d {
            if (d.get() as usize) < self.list.len() {
                self.list[d.get() as usize].reset(now);
            }
        }
    }

    /// The drive of this number was asked who it is.
    #[tactic(auto, using(crate::proofs::DriveLemmas::drives_changed, crate::proofs::DriveLemmas::drives_past, crate::proofs::DriveLemmas::AreRoomy_set, crate::proofs::DriveLemmas::AreQuick_set))]
    pub fn identity_asked(&mut self, d: Option<DriveNo>)
        ensures list { self.new.list ≡ changed_at_some d after_asking self.old.list }
        ensures room { self.new.room ≡ self.old.room }
    {
        if let Some(d) = d {
            if (d.get() as usize) < self.list.len() {
                self.list[d.get() as usize].identity_asked();
            }
        }
    }

    /// The drive of this number was unplugged.
    #[tactic(auto, using(crate::proofs::DriveLemmas::drives_changed, crate::proofs::DriveLemmas::drives_past, crate::proofs::DriveLemmas::AreRoomy_set, crate::proofs::DriveLemmas::AreQuick_set))]
    pub fn drop_held(&mut self, d: Option<DriveNo>)
        ensures list { self.new.list ≡ changed_at_some d emptied self.old.list }
        ensures room { self.new.room ≡ self.old.room }
    {
        if let Some(d) = d {
            if (d.get() as usize) < self.list.len() {
                self.list[d.get() as usize].drop_held();
            }
        }
    }

    /// The log of the drive of this number was read.
    #[tactic(auto, using(crate::proofs::DriveLemmas::drives_changed, crate::proofs::DriveLemmas::drives_past, crate::proofs::DriveLemmas::AreRoomy_set, crate::proofs::DriveLemmas::AreQuick_set, crate::proofs::DriveLemmas::log_ready))]
    pub fn log_told(&mut self, d: Option<DriveNo>, idle: Option<Tag>, told: &LogTold)
        ensures list { self.new.list ≡ changed_at_some d (log_read idle told.now) self.old.list }
        ensures room { self.new.room ≡ self.old.room }
    {
        if let Some(d) = d {
            if (d.get() as usize) < self.list.len() {
                self.list[d.get() as usize].log_told(idle, told);
            }
        }
    }

    /// A fault is put into the drive of this number. A bit of SError changes no drive.
    #[tactic(auto, using(crate::proofs::DriveLemmas::drives_injected, crate::proofs::DriveLemmas::drives_past, crate::proofs::DriveLemmas::AreRoomy_set, crate::proofs::DriveLemmas::AreQuick_set, crate::proofs::DriveLemmas::inject_ready))]
    pub fn inject(&mut self, d: Option<DriveNo>, fault: &Fault)
        requires { TakesFault fault.now (drive_in self.old.list d) }
        ensures list { self.new.list ≡ changed_at_some d (injected fault.now) self.old.list }
        ensures room { self.new.room ≡ self.old.room }
    {
        if let Some(d) = d {
            if (d.get() as usize) < self.list.len() {
                let _ = self.list[d.get() as usize].inject(fault);
            }
        }
    }
}

/// The drive of a head, as it begins.
#[tactic(auto, using(crate::proofs::HeadLemmas::fits_page))]
fn drive_of(alloc: Global, head: &DriveHead) -> Result<Drive, OutOfMemory>
    ensures value { IfOk result (λ d. d.drive ≡ fresh head.now.identity head.now.ready) }
    ensures quick { head.now.ready.n ≤ 60000 }
{
    Drive::new(alloc, head.identity.copy(), head.ready)
}

/// The stamps that a drive gives with a good end of the issue of this number.
fn stamps_of(drive: &Drive, number: IssueNo) -> Stamps
    ensures { result ≡ stamps_of number.n drive.now.drive }
{
    match drive.issue(number) {
        Some(issue) => drive.stamps(&issue.op),
        None => Stamps::new(),
    }
}

/// Makes room for so many issues at each of these drives.
#[tactic(auto, using(crate::proofs::DriveLemmas::roomy_all, crate::proofs::DriveLemmas::roomy_none))]
fn reserve_each(list: &mut Vec<Drive>, room: usize) -> Result<(), OutOfMemory>
    ensures drives { map drive_of list.new.items ≡ map drive_of list.old.items }
    ensures room { OnOk result (AreRoomy room list.new.items) }
    ensures kept { (less : ℕ) → AreRoomy less list.old.items → AreRoomy less list.new.items }
    ensures quick { AreQuick list.old.items → AreQuick list.new.items }
{
    for at in 0..list.len() {
        reserve_at(list, at, room)?;
    }
    Ok(())
}

/// Makes room for so many issues at the drive of this number.
#[tactic(auto, using(crate::proofs::DriveLemmas::drives_kept, crate::proofs::DriveLemmas::AreQuick_set, crate::proofs::DriveLemmas::reserved_kept, crate::proofs::DriveLemmas::roomy_more))]
fn reserve_at(list: &mut Vec<Drive>, at: usize, room: usize) -> Result<(), OutOfMemory>
    requires { at < length list.old.items }
    ensures drives { map drive_of list.new.items ≡ map drive_of list.old.items }
    ensures length { length list.new.items ≡ length list.old.items }
    ensures room { OnOk result (RoomyUpTo room at list.old.items → RoomyUpTo room (at + 1) list.new.items) }
    ensures kept { (less : ℕ) → AreRoomy less list.old.items → AreRoomy less list.new.items }
    ensures quick { AreQuick list.old.items → AreQuick list.new.items }
{
    list[at].reserve(room)
}
