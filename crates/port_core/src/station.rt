ghost use Rattle.std.specs.Prelude.{◌≡◌, ◌++◌, ◌∷◌, [], OnOk, OnErr};
ghost use Rattle.ata_trace.specs.Entries.{past_of};
ghost use Rattle.port_core.specs.PortView.{PortView};
ghost use Rattle.port_rules.specs.Legal.{IsLegal, entry_after};

use crate::machine::Machine;
use ata_base::OutOfMemory;
use ata_trace::{Step, Who};

/// What takes the steps of a port, and does something with what each told: a `Port` keeps it in its journal. A contract sees
/// what a contract of its machine sees.
pub trait Station {
    ghost seen: { Self → PortView };

    /// The machine, lent.
    fn machine(&self) -> &Machine
        ensures { result.now ≡ seen self.now };

    /// Makes room for one step. All else stays; after a refusal the room stays too.
    fn reserve(&mut self) -> Result<(), OutOfMemory>
        ensures ok { OnOk result (seen self.new ≡ record (seen self.old) { spare = 1 }) }
        ensures err { OnErr result (seen self.new ≡ seen self.old) };

    /// Makes the entry of a step, the `seq`-th of `who`. It always succeeds, and takes no memory.
    fn step(&mut self, who: Who, seq: u64, step: &Step)
        requires spare { (seen self.old).spare ≡ 1 }
        ensures number { (seen self.new).number ≡ (seen self.old).number }
        ensures head { (seen self.new).head ≡ (seen self.old).head }
        ensures entries { (seen self.new).entries ≡ (seen self.old).entries
            ++ entry_after (seen self.old).head (past_of (seen self.old).entries) who seq step.now ∷ [] }
        ensures legal { IsLegal (seen self.new).head (seen self.new).entries }
        ensures spare { (seen self.new).spare ≡ 0 };
}
