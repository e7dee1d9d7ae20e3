ghost use Rattle.std.specs.Prelude.{◌≡◌, ◌++◌, ◌∷◌, [], OnOk, OnErr};

use ata_base::{ActorNo, OutOfMemory, PortNo};
use ata_trace::Step;
use std::alloc::Global;
use std::marker::Model;

/// The steps of a script in order, each with the actor that takes it and its port. A contract sees
/// them as a list.
#[derive(Drop)]
pub struct Steps {
    list: Vec<(ActorNo, PortNo, Step)>,
}

impl Model for Steps {
    ghost use Rattle.std.specs.Prelude.{ℕ, List};
    ghost use Rattle.ata_trace.specs.declared.step.Step.{Step};

    ghost Value = { List (ℕ × ℕ × Step) };

    ghost view = { λ s. s.list.items };
}

impl Steps {
    /// No steps. It takes no memory.
    pub fn new(alloc: Global) -> Self
        ensures { result ≡ [] }
    {
        Steps {
            list: Vec::new(alloc),
        }
    }

    /// Asks for memory for so many steps ahead of need. Where it is refused, `push` asks for what each step needs.
    pub(crate) fn make_room(&mut self, steps: usize)
        ensures { self.new ≡ self.old }
    {
        let _ = self.list.reserve(steps);
    }

    /// Appends a step. Where memory is wanted, nothing changes.
    pub fn push(&mut self, step: (ActorNo, PortNo, Step)) -> Result<(), OutOfMemory>
        ensures ok { OnOk result (self.new ≡ self.old ++ step ∷ []) }
        ensures err { OnErr result (self.new ≡ self.old) }
    {
        self.list.push(step)?;
        Ok(())
    }

    /// The steps in order.
    pub fn items(&self) -> &[(ActorNo, PortNo, Step)]
        ensures { result.now ≡ self.now }
    {
        &self.list
    }
}
