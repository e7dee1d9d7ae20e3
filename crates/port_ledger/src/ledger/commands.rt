ghost use Rattle.std.specs.Prelude.{◌≡◌, ◌==◌, ◌≤◌, None, length, slice_index_or, IfSome};
ghost use Rattle.std.specs.List.{list_any};
ghost use Rattle.std.specs.Option.{option_copied};
ghost use Rattle.host_tags.specs.Numbers.{AreApart};
ghost use Rattle.host_tags.specs.Slots.{flight_at, free_below, lowest_free};
ghost use Rattle.port_past.specs.Attachment.{detachments};
ghost use Rattle.port_past.specs.Commands.{commands, command_of, is_accepted, is_gone};
ghost use Rattle.port_past.specs.Completions.{completions};
ghost use Rattle.host_queue.specs.Waiting.{front_of};
ghost use Rattle.port_past.specs.Judged.{judged};
ghost use Rattle.port_past.specs.Live.{live};
ghost use Rattle.port_past.specs.Queues.{queues};
ghost use Rattle.port_past.specs.Slots.{slots};
ghost use Rattle.port_ledger.specs.Commands.{CanServe};
ghost use Rattle.port_ledger.specs.LedgerView.{past};
ghost use Rattle.port_ledger.specs.Parts.{completion_at};

use super::Ledger;
use ata_base::{Cmd, CmdId, Place, Tag};
use host_tags::{InFlight, Slots};
use port_past::{Completion, Judgement};

// What is asked of commands and issues.
impl Ledger {
    /// Whether a command of this number was accepted.
    pub fn is_accepted(&self, id: CmdId) -> bool
        ensures { result ≡ is_accepted id (commands (past self.now)) }
    {
        self.commands.is_accepted(id)
    }

    /// The accepted commands, in the order of acceptance, lent.
    pub fn accepted(&self) -> &[Cmd]
        ensures { result.now ≡ commands (past self.now) }
    {
        self.commands.list()
    }

    /// Whether the command of this number is live.
    pub fn is_live(&self, id: CmdId) -> bool
        ensures { result ≡ list_any (λ c. c == id) (live (past self.now)) }
    {
        self.live.is_live(id, &self.commands)
    }

    /// How many commands are live.
    pub fn live(&self) -> u32
        ensures value { result ≡ length (live (past self.now)) }
        ensures most { result ≤ length (commands (past self.now)) }
        ensures few { result ≤ 65536 }
    {
        self.live.count(self.commands.list()) as u32
    }

    /// The accepted command of this number.
    pub fn command(&self, id: CmdId) -> Option<Cmd>
        ensures value { result ≡ command_of id (commands (past self.now)) }
        ensures served { IfSome result CanServe }
    {
        self.commands.get(id)
    }

    /// Whether a command's device has left since its acceptance.
    pub fn is_gone(&self, cmd: &Cmd) -> bool
        ensures { result ≡ is_gone cmd.now (detachments (past self.now)) }
    {
        self.attachments.detachments[cmd.place.get() as usize] != cmd.attachment
    }

    /// The command at the front of a place's queue, None exactly where none waits there.
    pub fn front(&self, place: Place) -> Option<Cmd>
        ensures value { result ≡ front_of (queues (past self.now)) place }
        ensures served { IfSome result CanServe }
    {
        self.queues.front(place)
    }

    /// What the autopsy of this recovery made of the issue under a tag.
    pub fn judgement(&self, tag: Tag) -> Option<Judgement>
        ensures { result ≡ slice_index_or (judged (past self.now)) tag None }
    {
        self.eh.judgements[tag.get() as usize]
    }

    /// The issues in flight, lent.
    pub fn slots(&self) -> &Slots
        ensures value { result.now ≡ slots (past self.now) }
        ensures apart { AreApart (slots (past self.now)) }
    {
        self.flights.slots()
    }

    /// The issue in flight under a tag, lent.
    pub fn flight(&self, tag: Tag) -> &Option<InFlight>
        ensures value { result.now ≡ flight_at (slots (past self.now)) tag }
        ensures size { length (slots (past self.now)) ≡ 32 }
        ensures apart { AreApart (slots (past self.now)) }
    {
        self.flights.at(tag)
    }

    /// The lowest free tag below `limit`, None exactly where no tag below `limit` is free.
    pub fn free_below(&self, limit: u8) -> Option<Tag>
        ensures { result ≡ free_below limit (slots (past self.now)) }
    {
        self.flights.slots().free_below(limit)
    }

    /// The lowest free tag, None exactly where all are busy.
    pub fn lowest_free(&self) -> Option<Tag>
        ensures { result ≡ lowest_free (slots (past self.now)) }
    {
        self.flights.lowest_free()
    }

    /// The good end of the issue under a tag, lent.
    pub fn completion(&self, tag: Tag) -> Option<&Completion>
        ensures value { option_copied result ≡ completion_at (completions self.now.head (past self.now)) tag }
        ensures size { length (completions self.now.head (past self.now)) ≡ 32 }
    {
        self.completions.get(tag)
    }
}
