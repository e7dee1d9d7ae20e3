ghost use Rattle.std.specs.Prelude.{◌≡◌, ◌++◌, ◌∷◌, [], OnOk, OnErr};
ghost use Rattle.ata_script.specs.Drafts.{AddsAt};

use crate::drive_head::DriveHead;
use crate::port_head::PortHead;
use crate::refusal::Refusal;
use crate::standing::add_drive;
use ata_base::{DriveNo, OutOfMemory, PortNo};
use std::alloc::Global;
use std::marker::Model;

/// The ports of a script in the order of their numbers. A contract sees them as a list.
#[derive(Drop)]
pub struct Head {
    list: Vec<PortHead>,
}

impl Model for Head {
    ghost use Rattle.std.specs.Prelude.{List};
    ghost use Rattle.ata_script.specs.declared.port_head.PortHead.{PortHead};

    ghost Value = { List PortHead };

    ghost view = { λ h. h.list.items };
}

impl Head {
    /// No ports. It takes no memory.
    pub fn new(alloc: Global) -> Self
        ensures { result ≡ [] }
    {
        Head {
            list: Vec::new(alloc),
        }
    }

    /// Appends a port. Where memory is wanted, nothing changes but for the port's head, which is gone.
    pub fn push(&mut self, port: PortHead) -> Result<(), OutOfMemory>
        ensures ok { OnOk result (self.new ≡ self.old ++ port ∷ []) }
        ensures err { OnErr result (self.new ≡ self.old) }
    {
        self.list.push(port)?;
        Ok(())
    }

    /// Adds a drive to a port where it stands in order.
    pub(crate) fn add_drive(
        &mut self,
        port: PortNo,
        number: DriveNo,
        drive: DriveHead,
    ) -> Result<(), Refusal>
        ensures { AddsAt self.old self.new port number drive result }
    {
        let at = port.get() as usize;
        if at >= self.list.len() {
            return Err(Refusal::Rule(6));
        }
        add_drive(&mut self.list[at], number, drive)
    }

    /// The ports in order.
    pub fn items(&self) -> &[PortHead]
        ensures { result.now ≡ self.now }
    {
        &self.list
    }
}
