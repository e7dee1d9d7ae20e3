ghost use Rattle.std.specs.Prelude.{◌≡◌, ◌∷◌, ◌<◌, ◌≤◌, [], IfOk, OnOk, OnErr};
ghost use Rattle.ata_base.specs.Limits.{most_places};
ghost use Rattle.ata_trace.specs.Entries.{past_of};
ghost use Rattle.ata_trace.specs.Event.Event.{Entered, Told};
ghost use Rattle.ata_trace.specs.declared.step.Step.TheVariants as steps;
ghost use Rattle.ata_trace.specs.declared.who.Who.TheVariants as by;
ghost use Rattle.host_queue.specs.Waiting.{no_lists};
ghost use Rattle.port_past.specs.Clock.{clock};
ghost use Rattle.port_ledger.specs.LedgerView.{Begins, Goes, past};
ghost use Rattle.port_ledger.specs.Sound.{IsSound};

mod commands;
mod on_way;
mod places;
mod port;

use crate::attachments::{Attachments, note_attachments};
use crate::causes::{Causes, begin_causes, begin_noted, note_causes};
use crate::command_queues::CommandQueues;
use crate::command_table::CommandTable;
use crate::completion_list::CompletionList;
use crate::drive_list::DriveList;
use crate::drive_notes::{note_completions, note_drives};
use crate::eh_parts::EhParts;
use crate::flights::Flights;
use crate::issue_notes::exclusive_after;
use crate::links::{Links, booted, note_links};
use crate::live_flags::LiveFlags;
use crate::modes::{Modes, note_modes};
use crate::notes;
use crate::numbered::NUMBERS;
use crate::port_state::{PortState, note_state};
use ata_base::{MOST_ACTS, Ms, OutOfMemory, Place};
use ata_script::PortHead;
use ata_trace::{Act, OpenEntry, Step, Who};
use std::alloc::Global;
use std::marker::Model;

/// How many events there may be before an entry, so that no count of them reaches 2^64.
const MOST_EVENTS: u64 = 18_446_744_073_709_551_358;

/// The entry of a port that began last, and beside it every part that keeps a reading of what the port has told so far. A
/// contract sees all entries; no memory holds those before the last.
///
/// It changes in two ways: `begin` begins an entry, and `note` tells an act of it. Each is an event; none of the parts
/// that count counts more than the events.
#[derive(Drop)]
pub struct Ledger {
    entry: OpenEntry,
    head: PortHead,
    begins: usize,
    room: usize,
    events: u64,
    step: Step,
    clock: u64,
    line: bool,
    state: PortState,
    issues: u64,
    settlings: u64,
    attachments: Attachments,
    commands: CommandTable,
    flights: Flights,
    links: Links,
    drives: DriveList,
    completions: CompletionList,
    causes: Causes,
    eh: EhParts,
    modes: Modes,
    live: LiveFlags,
    queues: CommandQueues,
    exclusive: Option<Place>,
}

impl Model for Ledger {
    ghost use Rattle.port_ledger.specs.LedgerView.{LedgerView};

    ghost Value = { LedgerView };

    ghost use Rattle.port_ledger.specs.Tracks.{Tracks};

    ghost view = { λ l. record {
      head = l.head;
      entries = l.entry.entries;
      begins = l.begins;
      room = l.room;
    } };

    ghost invariant = { Tracks };
}

impl Ledger {
    /// The boot entry of a port with this head has begun. There is room for 128 acts of it, and for no other entry.
    pub fn new(alloc: Global, head: PortHead) -> Result<Ledger, OutOfMemory>
        ensures head { IfOk result (λ l. l.head ≡ head) }
        ensures past { IfOk result (λ l. past l ≡ Entered 0 by.Boot 0 steps.Boot ∷ []) }
        ensures begins { IfOk result (λ l. l.begins ≡ 0) }
        ensures room { IfOk result (λ l. l.room ≡ 128) }
    {
        let entry = OpenEntry::new(alloc, Ms { n: 0 }, Who::Boot, 0, Step::Boot)?;
        let (commands, live, queues) = command_parts(alloc)?;
        let mut drives = DriveList::new(alloc, head.drives.items())?;
        drives.reserve(MOST_ACTS)?;
        let completions = CompletionList::new(alloc)?;
        let eh = EhParts::new(alloc)?;
        let links = booted(head.drives.items());
        Ok(Ledger {
            entry,
            head,
            begins: 0,
            room: MOST_ACTS,
            events: 1,
            step: Step::Boot,
            clock: 0,
            line: false,
            state: PortState::new(),
            issues: 0,
            settlings: 0,
            attachments: Attachments::new(),
            commands,
            flights: Flights::new(),
            links,
            drives,
            completions,
            causes: Causes::new(),
            eh,
            modes: Modes::new(),
            live,
            queues,
            exclusive: None,
        })
    }

    /// Makes room for one entry. All else stays; after a refusal the room stays too.
    pub fn reserve(&mut self) -> Result<(), OutOfMemory>
        ensures ok { OnOk result (self.new ≡ record self.old { begins = 1 }) }
        ensures err { OnErr result (self.new ≡ self.old) }
    {
        if self.events > MOST_EVENTS {
            return Err(OutOfMemory);
        }
        self.commands.reserve(self.room + MOST_ACTS)?;
        self.drives.reserve(self.room + MOST_ACTS)?;
        self.queues.reserve(self.room + MOST_ACTS)?;
        self.begins = 1;
        Ok(())
    }

    /// Asks for memory for as many commands ahead of need. Where it is refused, `reserve` asks for what each step needs.
    pub fn make_room(&mut self, steps: usize)
        ensures { self.new ≡ self.old }
    {
        let _ = self.commands.reserve(steps.min(NUMBERS));
    }

    /// Begins an entry, at the time by the clock. It has room for 128 acts.
    pub fn begin(&mut self, who: Who, seq: u64, step: &Step)
        requires { 0 < self.old.begins }
        ensures { Begins self.old self.new (Entered (clock (past self.old)) who seq step.now ∷ past self.old) }
    {
        self.entry.begin(Ms { n: self.clock }, who, seq, *step);
        let served = !self.state.frozen && self.line;
        begin_noted(&mut self.eh.noted, &self.causes.tferr, step, served);
        begin_causes(&mut self.causes, step, served);
        self.line = notes::line_at(step, self.state.frozen, self.line);
        self.settlings = notes::settlings_at(&who, self.settlings);
        self.step = *step;
        self.events += 1;
        self.begins -= 1;
        self.room = MOST_ACTS;
    }

    /// Tells an act of the last entry.
    pub fn note(&mut self, act: Act)
        requires room { 0 < self.old.room }
        requires sound { IsSound self.old.head (past self.old) act }
        ensures { Goes self.old self.new 0 1 (Told act ∷ past self.old) }
    {
        match &act {
            Act::Accepted { id } => self.note_accepted(*id),
            Act::Issued {
                id,
                number,
                tag,
                deadline,
                fis,
            } => self.note_issued(*id, *number, *tag, *deadline, *fis),
            Act::Done {
                number,
                status,
                error,
                lba,
                count,
            } => self.note_done(*number, *status, *error, *lba, *count),
            Act::AnsweredOk { .. } => self.note_answered_ok(act),
            Act::Raised => self.note_raised(),
            Act::Lost => self.note_lost(),
            Act::Now { at } => self.note_now(*at),
            Act::Deferred { id, why } => self.note_deferred(*id, *why),
            Act::Nothing => self.note_nothing(),
            _ => self.note_change(act),
        }
    }

    // The same of any act, told to each part.
    #[inline(never)]
    fn note_change(&mut self, act: Act)
        requires room { 0 < self.old.room }
        requires sound { IsSound self.old.head (past self.old) act }
        ensures { Goes self.old self.new 0 1 (Told act ∷ past self.old) }
    {
        // A part that reads another as it was before the act comes before that one.
        self.eh.note(
            &act,
            &self.flights,
            &self.links,
            &self.drives,
            &self.attachments.attached,
            &self.modes.dubious,
            self.head.pmp,
            self.state.frozen,
            self.clock,
            self.events,
        );
        self.exclusive = exclusive_after(&act, &self.flights, self.exclusive);
        notes::note_queues(
            &mut self.queues,
            &act,
            &self.step,
            &self.attachments.detachments,
            &self.commands,
        );
        note_completions(
            &mut self.completions,
            &act,
            &self.step,
            &self.flights,
            &self.links,
            &self.drives,
        );
        note_drives(
            &mut self.drives,
            &act,
            &self.step,
            self.clock,
            &self.commands,
            &self.flights,
            &self.links,
        );
        note_modes(&mut self.modes, &act, &self.commands, self.events);
        notes::note_slots(&mut self.flights, &act, &self.commands, self.issues);
        notes::note_commands(
            &mut self.commands,
            &mut self.live,
            &act,
            &self.step,
            &self.attachments.detachments,
        );
        note_links(&mut self.links, &act, &self.step);
        note_attachments(&mut self.attachments, &act, self.events);
        note_causes(&mut self.causes, &act, &self.step, self.head.pmp);
        note_state(&mut self.state, &act, self.clock);
        self.issues = notes::issue_count_after(&act, self.issues);
        self.clock = notes::clock_after(&act, self.clock);
        self.line = notes::line_after(&act, self.line);
        self.entry.add(act);
        self.events += 1;
        self.room -= 1;
    }
}

// No command, none live, and none that waits, with room for those of an entry.
fn command_parts(alloc: Global) -> Result<(CommandTable, LiveFlags, CommandQueues), OutOfMemory>
    ensures commands { IfOk result (λ parts. parts.0.list ≡ []) }
    ensures live { IfOk result (λ parts. parts.1 ≡ []) }
    ensures queues { IfOk result (λ parts. parts.2.lists ≡ no_lists most_places) }
    ensures retried { IfOk result (λ parts. parts.2.retried ≡ []) }
    ensures commands_room { IfOk result (λ parts. 128 ≤ parts.0.room) }
    ensures queues_room { IfOk result (λ parts. 128 ≤ parts.2.room) }
{
    let mut commands = CommandTable::new(alloc)?;
    commands.reserve(MOST_ACTS)?;
    let live = LiveFlags::new(alloc)?;
    let mut queues = CommandQueues::new(alloc)?;
    queues.reserve(MOST_ACTS)?;
    Ok((commands, live, queues))
}
