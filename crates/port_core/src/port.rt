ghost use Rattle.std.specs.Prelude.{◌≡◌, ◌≤◌, ◌∷◌, ◌==◌, [], length, IfOk};
ghost use Rattle.std.specs.List.{list_any};
ghost use Rattle.ata_trace.specs.Entries.{past_of};
ghost use Rattle.port_past.specs.Commands.{commands};
ghost use Rattle.port_past.specs.Live.{live};
ghost use Rattle.port_rules.specs.Boot.{boot_entry};

use crate::machine::Machine;
use crate::station::Station;
use ata_base::{Cmd, CmdId, OutOfMemory, PortNo};
use ata_script::PortHead;
use ata_trace::{Journal, Step, Who};
use std::alloc::Global;
use std::marker::Model;

/// A port with its journal. A contract sees its number, its head, the entries of its journal, and the
/// spare: for how many steps it has room, 0 or 1.
#[derive(Drop)]
pub struct Port {
    machine: Machine,
    journal: Journal,
}

impl Model for Port {
    ghost use Rattle.port_core.specs.PortView.{PortView};

    ghost Value = { PortView };

    ghost use Rattle.port_core.specs.Journaled.{IsJournaled};

    ghost view = { λ p. p.machine };

    ghost invariant = { IsJournaled };
}

impl Port {
    /// A port that has booted: its journal is the boot entry.
    pub fn start(alloc: Global, number: PortNo, head: &PortHead) -> Result<Port, OutOfMemory>
        ensures number { IfOk result (λ p. p.number ≡ number) }
        ensures head { IfOk result (λ p. p.head ≡ head.now) }
        ensures entries { IfOk result (λ p. p.entries ≡ boot_entry head.now ∷ []) }
    {
        let machine = Machine::start(alloc, number, head)?;
        let mut journal = Journal::new(alloc);
        journal.reserve()?;
        machine.keep(&mut journal);
        Ok(Port { machine, journal })
    }

    /// Asks for memory for so many steps ahead of need. Where it is refused, `reserve` asks for what each step needs.
    pub fn make_room(&mut self, steps: usize)
        ensures { self.new ≡ self.old }
    {
        self.machine.make_room(steps);
        self.journal.expect(steps, steps.saturating_mul(2));
    }

    /// The journal.
    pub fn journal(&self) -> &Journal
        ensures { result.now.entries ≡ self.now.entries }
    {
        &self.journal
    }

    /// The number of the port.
    pub fn number(&self) -> PortNo
        ensures { result ≡ self.now.number }
    {
        self.machine.number()
    }

    /// Whether the command of this number is live.
    pub fn is_live(&self, id: CmdId) -> bool
        ensures { result ≡ list_any (λ c. c == id) (live (past_of self.now.entries)) }
    {
        self.machine.is_live(id)
    }

    /// How many commands are live.
    pub fn live(&self) -> u32
        ensures value { result ≡ length (live (past_of self.now.entries)) }
        ensures most { result ≤ length (commands (past_of self.now.entries)) }
        ensures few { result ≤ 65536 }
    {
        self.machine.live()
    }

    /// The accepted commands, in the order of acceptance.
    pub fn accepted(&self) -> &[Cmd]
        ensures { result.now ≡ commands (past_of self.now.entries) }
    {
        self.machine.accepted()
    }
}

impl Station for Port {
    ghost seen = { λ p. p };

    fn machine(&self) -> &Machine {
        &self.machine
    }

    fn reserve(&mut self) -> Result<(), OutOfMemory> {
        self.journal.reserve()?;
        self.machine.reserve()
    }

    fn step(&mut self, who: Who, seq: u64, step: &Step) {
        self.machine.step(who, seq, step);
        self.machine.keep(&mut self.journal);
    }
}
