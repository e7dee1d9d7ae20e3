ghost use Rattle.std.specs.Prelude.{◌≡◌, [], ◌∷◌};
ghost use Rattle.port_rules.specs.Boot.{boot_entry};
ghost use Rattle.port_rules.specs.Legal.{IsLegal};
ghost use Rattle.port_threads.specs.Moves.{AreOfActors, moves_in};

use ata_base::{ActorNo, PortNo};
use ata_script::PortHead;
use ata_trace::{Step, Who};
use port_core::{Port, Station, runs_are_legal};
use std::marker::Model;
use turnstile::{Machine, OutOfMemory};

/// A port at which actors take steps, one after the other: each entry behind the boot entry is an actor's. A contract sees
/// the port.
#[derive(Drop)]
pub struct Desk {
    port: Port,
}

impl Model for Desk {
    ghost use Rattle.port_core.specs.PortView.{PortView};

    ghost Value = { PortView };

    ghost use Rattle.port_threads.specs.Desks.{IsOfDesk};

    ghost view = { λ d. d.port };

    ghost invariant = { λ d. IsOfDesk d.port };
}

impl Desk {
    /// A desk round a port that has booted and took no step yet. It takes no memory.
    pub fn new(port: Port) -> Desk
        requires { port.entries ≡ boot_entry port.head ∷ [] }
        ensures { result ≡ port }
    {
        runs_are_legal();
        Desk { port }
    }

    /// The port.
    pub fn into_port(self) -> Port
        ensures port { result ≡ self }
        ensures legal { IsLegal result.head result.entries }
        ensures actors { AreOfActors result.entries }
    {
        self.port
    }
}

// Its history has the entries behind the boot entry, as moves of actors. Its number and its head stay.
impl Machine for Desk {
    type Move = Step;

    type Fixed = (PortNo, PortHead);

    ghost history = { λ d. moves_in d.entries };

    ghost fixed = { λ d. (d.number, d.head) };

    ghost spare = { λ d. d.spare };

    fn reserve(&mut self) -> Result<(), OutOfMemory> {
        match self.port.reserve() {
            Ok(()) => Ok(()),
            Err(_) => Err(OutOfMemory),
        }
    }

    fn step(&mut self, actor: u8, seq: u64, step: &Step) {
        self.port.step(Who::Actor(ActorNo::at(actor)), seq, step);
    }
}
