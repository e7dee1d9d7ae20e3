ghost use Rattle.std.specs.Prelude.{◌≡◌, ℕ, ◌+◌, ◌<◌, ◌↔◌, ◌^◌, Option, length, max, is_some, IsTrue, IsBitSet, IfOk, OnOk, OnErr};
ghost use Rattle.ata_base.specs.declared.op.Op.{Op};
ghost use Rattle.ata_base.specs.Limits.{tag_count};
ghost use Rattle.ata_ident.specs.Build.{FitsPage};
ghost use Rattle.ata_tf.specs.CommandCodes.{stamped};
ghost use Rattle.drive_model.specs.Frame.{Gives, IsCommandFrame};
ghost use Rattle.drive_model.specs.FreshAndReset.{fresh, emptied, reset_at};
ghost use Rattle.drive_model.specs.Holding.{has_tag, taken};
ghost use Rattle.drive_model.specs.Sectors.{IsShort};

mod faults;
mod log;
mod work;

use crate::counts::Counts;
use crate::frame;
use crate::held::Held;
use crate::holding::Holding;
use crate::queued_error::QueuedError;
use crate::sectors::Sectors;
use ata_base::{Identity, IssueNo, Ms, Op, OutOfMemory, Tag};
use std::alloc::Global;
use std::marker::Model;

/// A simulated drive. A contract sees it beside its spare: for how many more issues it has memory. Only `new` and
/// `reserve` take memory. `take` and `work` cost what the command's sectors and the held issues cost, whatever the
/// size of the drive is; a write also clears the sectors before its own that no write has reached yet, each sector once.
#[derive(Drop)]
pub struct Drive {
    identity: Identity,
    ready: Ms,
    sectors: Sectors,
    holding: Holding,
    counts: Counts,
    stopped: Option<QueuedError>,
    ready_at: Ms,
}

impl Model for Drive {
    ghost use Rattle.std.specs.Prelude.{◌≡◌, ◌<◌, ◌^◌, length, IfSome};
    ghost use Rattle.ata_ident.specs.Build.{FitsPage};
    ghost use Rattle.drive_model.specs.Holding.{AllShort};
    ghost use Rattle.drive_model.specs.View.{DriveView, DriveWithSpare};

    ghost Value = { DriveWithSpare };

    ghost view = { λ d. record {
      drive = record {
        identity = d.identity;
        ready = d.ready;
        stamps = d.sectors.stamps;
        bad = d.sectors.bad;
        held = d.holding.issues;
        counts = d.counts;
        stopped = d.stopped;
        ready_at = d.ready_at;
      };
      spare = d.holding.spare;
    } };

    ghost invariant = { λ d.
        FitsPage d.identity
        × (length d.sectors.bad ≡ d.identity.sectors)
        × IfSome d.stopped (λ e. e.regs.lba < 2 ^ 48) };
}

impl Drive {
    /// A drive with this identity that takes `ready` from a reset until it is ready: each of its sectors is good and
    /// has the stamp 0, no fault is to come, nothing is held, and it is ready at once. The identity is one that a page
    /// can hold. There is memory for an issue for each tag.
    pub fn new(alloc: Global, i: Identity, ready: Ms) -> Result<Drive, OutOfMemory>
        requires { FitsPage i }
        ensures { IfOk result (λ d. d ≡ record { drive = fresh i ready; spare = tag_count }) }
    {
        let sectors = Sectors::new(alloc, i.sectors)?;
        let holding = Holding::new(alloc)?;
        Ok(Drive {
            identity: i,
            ready,
            sectors,
            holding,
            counts: Counts::new(),
            stopped: None,
            ready_at: Ms { n: 0 },
        })
    }

    /// Makes the spare at least `more`. The drive stays, and without memory the spare too.
    pub fn reserve(&mut self, more: usize) -> Result<(), OutOfMemory>
        ensures drive { self.new.drive ≡ self.old.drive }
        ensures ok { OnOk result (self.new.spare ≡ max self.old.spare more) }
        ensures err { OnErr result (self.new.spare ≡ self.old.spare) }
    {
        self.holding.reserve(more)
    }

    /// Takes issue `n` with this tag and frame; a write is to store `stamp` in each of its sectors. The first of hang,
    /// icrc, abort, df, badstat and idnf whose count isn't 0 is assigned to it, and that count falls by 1.
    ///
    /// The frame is one of the table of commands, and a read has at most 16 sectors. Sectors past the end are read as
    /// stamp 0 and aren't written.
    pub fn take(&mut self, n: IssueNo, tag: Tag, fis: &[u8; 20], stamp: u64)
        requires frame { IsCommandFrame fis.now }
        requires spare { 0 < self.old.spare }
        ensures drive { (op : Op) (queued : Option ℕ) → Gives fis.now op queued
            → self.new.drive ≡ taken n tag (stamped stamp op) (is_some queued) self.old.drive }
        ensures spare { self.new.spare + 1 ≡ self.old.spare }
    {
        let asked = frame::read(fis, stamp);
        self.hold(n, tag, &asked.op, asked.queued);
    }

    /// Takes issue `n` as `take` does, by the operation that its frame asks for.
    pub fn hold(&mut self, n: IssueNo, tag: Tag, op: &Op, queued: bool)
        requires short { IsShort op.now }
        requires spare { 0 < self.old.spare }
        ensures drive { self.new.drive ≡ taken n tag op.now queued self.old.drive }
        ensures spare { self.new.spare + 1 ≡ self.old.spare }
    {
        let assigned = self.counts.assign();
        self.holding.push(Held {
            number: n,
            tag,
            op: *op,
            queued,
            assigned,
        });
    }

    /// The tags of the issues that it holds: bit t stands for tag t.
    pub fn held(&self) -> u32
        ensures { (t : ℕ) → IsBitSet result t ↔ IsTrue (has_tag t self.now.drive.held) }
    {
        self.holding.tags()
    }

    /// It was reset at this time: it holds nothing any more, isn't stopped, and is ready the time later that `new` was
    /// given. That sum fits 64 bits.
    pub fn reset(&mut self, now: Ms)
        requires { now.n + self.old.drive.ready.n < 2 ^ 64 }
        ensures drive { self.new.drive ≡ reset_at now self.old.drive }
        ensures spare { self.new.spare ≡ self.old.spare + length self.old.drive.held }
    {
        self.drop_held();
        self.ready_at = Ms {
            n: now.n + self.ready.n,
        };
    }

    /// From which moment on it is ready: what the last reset said, 0 before the first one.
    pub fn ready_at(&self) -> Ms
        ensures { result ≡ self.now.drive.ready_at }
    {
        self.ready_at
    }

    /// It was unplugged: it holds nothing any more and isn't stopped. Its sectors and the faults to come stay.
    pub fn drop_held(&mut self)
        ensures drive { self.new.drive ≡ emptied self.old.drive }
        ensures spare { self.new.spare ≡ self.old.spare + length self.old.drive.held }
    {
        self.holding.clear();
        self.stopped = None;
    }

    /// The error of a queued command that stopped it, `None` where it isn't stopped.
    pub fn stopped(&self) -> Option<QueuedError>
        ensures { result ≡ self.now.drive.stopped }
    {
        self.stopped
    }

    /// Who it is.
    pub fn identity(&self) -> &Identity
        ensures { result.now ≡ self.now.drive.identity }
    {
        &self.identity
    }
}
