ghost use Rattle.std.specs.Prelude.{◌≡◌, []};
ghost use Rattle.ata_script.specs.Draft.{begun};
ghost use Rattle.ata_script.specs.Drafts.{draft_said, drive_line, port_line};
ghost use Rattle.ata_script.specs.Items.Item.{Taken};
ghost use Rattle.ata_script.specs.Reader.{Adds};

use crate::drive_head::DriveHead;
use crate::head::Head;
use crate::port_head::PortHead;
use crate::refusal::Refusal;
use crate::steps::Steps;
use ata_base::{ActorNo, DriveNo, PortNo};
use ata_trace::Step;
use std::alloc::Global;

/// A script as far as it was read.
#[derive(Drop)]
pub(crate) struct Draft {
    pub(crate) version: u8,
    pub(crate) head: Head,
    pub(crate) steps: Steps,
}

impl Draft {
    /// A script of this version, before its second line. Memory is asked for ahead for so many steps.
    pub(crate) fn new(alloc: Global, version: u8, steps_ahead: usize) -> Self
        ensures { draft_said result ≡ begun version }
    {
        let mut steps = Steps::new(alloc);
        steps.make_room(steps_ahead);
        Draft {
            version,
            head: Head::new(alloc),
            steps,
        }
    }

    /// Adds a port where it stands in order.
    pub(crate) fn add_port(&mut self, number: PortNo, port: PortHead) -> Result<(), Refusal>
        requires { port.drives ≡ [] }
        ensures { Adds (draft_said self.old) (draft_said self.new) (port_line number port) result }
    {
        let in_order = self.steps.items().is_empty()
            && number.get() as usize == self.head.items().len();
        if !in_order {
            return Err(Refusal::Rule(6));
        }
        match self.head.push(port) {
            Ok(()) => Ok(()),
            Err(_) => Err(Refusal::Memory),
        }
    }

    /// Adds a drive where it stands in order.
    pub(crate) fn add_drive(
        &mut self,
        port: PortNo,
        number: DriveNo,
        drive: DriveHead,
    ) -> Result<(), Refusal>
        ensures { Adds (draft_said self.old) (draft_said self.new) (drive_line port number drive) result }
    {
        if !self.steps.items().is_empty() {
            return Err(Refusal::Rule(6));
        }
        self.head.add_drive(port, number, drive)
    }

    /// Adds a step where it stands in order.
    pub(crate) fn add_step(
        &mut self,
        actor: ActorNo,
        port: PortNo,
        step: Step,
    ) -> Result<(), Refusal>
        ensures { Adds (draft_said self.old) (draft_said self.new) (Taken actor port step) result }
    {
        if port.get() as usize >= self.head.items().len() {
            return Err(Refusal::Rule(6));
        }
        match self.steps.push((actor, port, step)) {
            Ok(()) => Ok(()),
            Err(_) => Err(Refusal::Memory),
        }
    }
}
