ghost use Rattle.std.specs.Prelude.{◌≡◌, ◌∷◌, ◌<◌, ◌≤◌, ◌^◌};
ghost use Rattle.ata_trace.specs.Event.Event.{Told};
ghost use Rattle.ata_trace.specs.declared.act.Act.TheVariants as acts;
ghost use Rattle.port_ledger.specs.LedgerView.{Goes, past};
ghost use Rattle.port_ledger.specs.Sound.{IsAnswerOk, IsSound};

use super::Ledger;
use crate::causes::note_tferr;
use crate::drive_notes::{note_completions, note_drives};
use crate::issue_notes::exclusive_after;
use crate::modes::note_doubt;
use crate::notes;
use ata_base::{CmdId, Deferral, IssueNo, Ms, Tag};
use ata_trace::Act;

// The acts of a command on its way, which most acts are: each is told to those parts alone that it changes.
impl Ledger {
    /// Tells that there was nothing to do, which changes no other part.
    pub(crate) fn note_nothing(&mut self)
        requires { 0 < self.old.room }
        ensures { Goes self.old self.new 0 1 (Told acts.Nothing ∷ past self.old) }
    {
        self.entry.add(Act::Nothing);
        self.events += 1;
        self.room -= 1;
    }

    /// Tells that a command stays where it waits, which changes no part either.
    pub(crate) fn note_deferred(&mut self, id: CmdId, why: Deferral)
        requires { 0 < self.old.room }
        ensures { Goes self.old self.new 0 1 (Told (acts.Deferred id why) ∷ past self.old) }
    {
        self.entry.add(Act::Deferred { id, why });
        self.events += 1;
        self.room -= 1;
    }

    /// The interrupt line goes up.
    pub(crate) fn note_raised(&mut self)
        requires { 0 < self.old.room }
        ensures { Goes self.old self.new 0 1 (Told acts.Raised ∷ past self.old) }
    {
        self.line = true;
        self.entry.add(Act::Raised);
        self.events += 1;
        self.room -= 1;
    }

    /// The interrupt line goes down.
    pub(crate) fn note_lost(&mut self)
        requires { 0 < self.old.room }
        ensures { Goes self.old self.new 0 1 (Told acts.Lost ∷ past self.old) }
    {
        self.line = false;
        self.entry.add(Act::Lost);
        self.events += 1;
        self.room -= 1;
    }

    /// The time from now on.
    pub(crate) fn note_now(&mut self, at: Ms)
        requires room { 0 < self.old.room }
        requires early { at.n ≤ 2 ^ 62 }
        ensures { Goes self.old self.new 0 1 (Told (acts.Now at) ∷ past self.old) }
    {
        self.clock = at.n;
        self.entry.add(Act::Now { at });
        self.events += 1;
        self.room -= 1;
    }

    /// A command waits from now on, and is live.
    pub(crate) fn note_accepted(&mut self, id: CmdId)
        requires room { 0 < self.old.room }
        requires sound { IsSound self.old.head (past self.old) (acts.Accepted id) }
        ensures { Goes self.old self.new 0 1 (Told (acts.Accepted id) ∷ past self.old) }
    {
        let act = Act::Accepted { id };
        notes::note_queues(
            &mut self.queues,
            &act,
            &self.step,
            &self.attachments.detachments,
            &self.commands,
        );
        notes::note_commands(
            &mut self.commands,
            &mut self.live,
            &act,
            &self.step,
            &self.attachments.detachments,
        );
        self.entry.add(act);
        self.events += 1;
        self.room -= 1;
    }

    /// A command leaves its queue, and its issue is in flight at the drive.
    pub(crate) fn note_issued(
        &mut self,
        id: CmdId,
        number: IssueNo,
        tag: Tag,
        deadline: Ms,
        fis: [u8; 20],
    )
        requires room { 0 < self.old.room }
        requires sound { IsSound self.old.head (past self.old) (acts.Issued id number tag deadline fis) }
        ensures { Goes self.old self.new 0 1 (Told (acts.Issued id number tag deadline fis) ∷ past self.old) }
    {
        let act = Act::Issued {
            id,
            number,
            tag,
            deadline,
            fis,
        };
        notes::note_queues(
            &mut self.queues,
            &act,
            &self.step,
            &self.attachments.detachments,
            &self.commands,
        );
        note_completions(
            &mut self.completions,
            &act,
            &self.step,
            &self.flights,
            &self.links,
            &self.drives,
        );
        note_drives(
            &mut self.drives,
            &act,
            &self.step,
            self.clock,
            &self.commands,
            &self.flights,
            &self.links,
        );
        notes::note_slots(&mut self.flights, &act, &self.commands, self.issues);
        self.issues += 1;
        self.entry.add(act);
        self.events += 1;
        self.room -= 1;
    }

    /// The drive ends an issue: with a good end it is completed, with another it fails.
    pub(crate) fn note_done(&mut self, number: IssueNo, status: u8, error: u8, lba: u64, count: u16)
        requires room { 0 < self.old.room }
        requires sound { IsSound self.old.head (past self.old) (acts.Done number status error lba count) }
        ensures { Goes self.old self.new 0 1 (Told (acts.Done number status error lba count) ∷ past self.old) }
    {
        let act = Act::Done {
            number,
            status,
            error,
            lba,
            count,
        };
        note_completions(
            &mut self.completions,
            &act,
            &self.step,
            &self.flights,
            &self.links,
            &self.drives,
        );
        note_drives(
            &mut self.drives,
            &act,
            &self.step,
            self.clock,
            &self.commands,
            &self.flights,
            &self.links,
        );
        note_tferr(&mut self.causes.tferr, &act, &self.step);
        self.entry.add(act);
        self.events += 1;
        self.room -= 1;
    }

    /// A command is answered with success, and its issue is in flight no longer.
    pub(crate) fn note_answered_ok(&mut self, act: Act)
        requires room { 0 < self.old.room }
        requires kind { IsAnswerOk act }
        ensures { Goes self.old self.new 0 1 (Told act ∷ past self.old) }
    {
        // A part that reads another as it was before the act comes before that one.
        self.exclusive = exclusive_after(&act, &self.flights, self.exclusive);
        note_completions(
            &mut self.completions,
            &act,
            &self.step,
            &self.flights,
            &self.links,
            &self.drives,
        );
        note_doubt(&mut self.modes.dubious, &act, &self.commands);
        notes::note_slots(&mut self.flights, &act, &self.commands, self.issues);
        notes::note_commands(
            &mut self.commands,
            &mut self.live,
            &act,
            &self.step,
            &self.attachments.detachments,
        );
        self.state.quiet_since = self.clock;
        self.entry.add(act);
        self.events += 1;
        self.room -= 1;
    }
}
