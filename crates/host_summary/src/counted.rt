ghost use Rattle.std.specs.Prelude.{◌≡◌, ◌≤◌, ◌∷◌, [], IfOk};
ghost use Rattle.host_summary.specs.Summary.{summary_of};
ghost use Rattle.port_rules.specs.Boot.{boot_entry};

use crate::counting::{count_last, nothing};
use crate::summary::Summary;
use ata_base::{OutOfMemory, PortNo};
use ata_script::PortHead;
use ata_trace::{Step, Who};
use port_core::{Machine, Station};
use std::alloc::Global;
use std::marker::Model;

/// A port whose entries are counted as they are told, and not kept. A contract sees what it sees of a port.
#[derive(Drop)]
pub struct Counted {
    machine: Machine,
    counts: Summary,
}

impl Model for Counted {
    ghost use Rattle.std.specs.Prelude.{◌≡◌};
    ghost use Rattle.host_summary.specs.Tally.{none_of, with_entries};
    ghost use Rattle.port_core.specs.PortView.{PortView};

    ghost Value = { PortView };

    ghost view = { λ c. c.machine };

    ghost invariant = { λ c. c.counts ≡ with_entries (none_of 0 0) c.machine.entries };
}

impl Counted {
    /// A port that has booted.
    pub fn start(alloc: Global, number: PortNo, head: &PortHead) -> Result<Counted, OutOfMemory>
        ensures number { IfOk result (λ c. c.number ≡ number) }
        ensures head { IfOk result (λ c. c.head ≡ head.now) }
        ensures entries { IfOk result (λ c. c.entries ≡ boot_entry head.now ∷ []) }
    {
        let machine = Machine::start(alloc, number, head)?;
        let mut counts = nothing(0, 0);
        count_last(&mut counts, &machine);
        Ok(Counted { machine, counts })
    }

    /// What its entries come to: no commands of a script, and its live commands.
    pub fn summary(&self) -> Summary
        ensures value { result ≡ summary_of [] (self.now.entries ∷ []) }
        ensures few { result.live ≤ 65536 }
    {
        let mut summary = self.counts;
        summary.live = u64::from(self.machine.live());
        summary
    }
}

impl Station for Counted {
    ghost seen = { λ c. c };

    fn machine(&self) -> &Machine {
        &self.machine
    }

    fn reserve(&mut self) -> Result<(), OutOfMemory> {
        self.machine.reserve()
    }

    fn step(&mut self, who: Who, seq: u64, step: &Step) {
        self.machine.step(who, seq, step);
        count_last(&mut self.counts, &self.machine);
    }
}
