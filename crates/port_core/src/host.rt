ghost use Rattle.std.specs.Prelude.{◌≡◌, ◌≤◌, ◌++◌, ◌∷◌, [], length, slice_get, IfSome, OnOk, OnErr};
ghost use Rattle.std.specs.Option.{option_copied};
ghost use Rattle.port_core.specs.Hosts.{AreNumbered, AreOfHost, at_port, journals_in, lives_of, stepped, with_room};

use crate::port::Port;
use crate::station::Station;
use ata_base::{OutOfMemory, PortNo};
use ata_trace::{Step, Who};
use std::alloc::Global;
use std::marker::Model;
use std::mem;

/// The ports of a host in the order of their numbers: the one at place i has the number i. A contract
/// sees them as a list.
#[derive(Drop)]
pub struct Host {
    ports: Vec<Port>,
}

impl Model for Host {
    ghost use Rattle.std.specs.Prelude.{List};
    ghost use Rattle.port_core.specs.PortView.{PortView};
    ghost use Rattle.port_core.specs.Hosts.{AreOfHost};

    ghost Value = { List PortView };

    ghost view = { λ h. h.ports.items };

    ghost invariant = { λ h. AreOfHost h.ports.items };
}

impl Host {
    /// No ports. It takes no memory.
    pub fn new(alloc: Global) -> Host
        ensures { result ≡ [] }
    {
        Host {
            ports: Vec::new(alloc),
        }
    }

    /// Appends the next port. Where memory is wanted, nothing changes but for the port, which is gone.
    #[tactic(auto, using(crate::proofs::Hosts::numbered_push))]
    pub fn push(&mut self, port: Port) -> Result<(), OutOfMemory>
        requires { port.number ≡ length self.old }
        ensures ok { OnOk result (self.new ≡ self.old ++ port ∷ []) }
        ensures err { OnErr result (self.new ≡ self.old) }
    {
        let number = port.number().get();
        prove!(number < 8);
        self.ports.push(port)?;
        Ok(())
    }

    /// Makes room for one step at the port of this number, and does nothing where there is no such port. Refused where there
    /// is no memory. All other ports stay, and after a refusal this one too.
    #[tactic(auto, using(crate::proofs::Hosts::changed_past, crate::proofs::Hosts::port_changed, crate::proofs::Hosts::port_stays))]
    pub fn reserve(&mut self, number: PortNo) -> Result<(), OutOfMemory>
        ensures ok { OnOk result (self.new ≡ at_port number with_room self.old) }
        ensures err { OnErr result (self.new ≡ self.old) }
    {
        let place = number.get() as usize;
        if place < self.ports.len() {
            self.ports[place].reserve()
        } else {
            Ok(())
        }
    }

    /// The port of this number takes a step, the `seq`-th of `who`; where there is none, nothing does.
    /// All other ports stay. It always succeeds, and takes no memory.
    #[tactic(auto, using(crate::proofs::Hosts::changed_past, crate::proofs::Hosts::port_stepped))]
    pub fn step(&mut self, number: PortNo, who: Who, seq: u64, step: &Step)
        requires { IfSome (slice_get self.old number) (λ port. port.spare ≡ 1) }
        ensures { self.new ≡ at_port number (stepped who seq step.now) self.old }
    {
        let place = number.get() as usize;
        if place < self.ports.len() {
            self.ports[place].step(who, seq, step);
        }
    }

    /// Hands out the ports in order, and has none any more.
    pub fn take_ports(&mut self) -> Vec<Port>
        ensures ports { result.items ≡ self.old }
        ensures none { self.new ≡ [] }
        ensures of_host { AreOfHost self.old }
    {
        let alloc = *self.ports.allocator();
        mem::replace(&mut self.ports, Vec::new(alloc))
    }

    /// Takes these ports in place of its own.
    pub fn give_ports(&mut self, ports: Vec<Port>)
        requires { AreOfHost ports.items }
        ensures { self.new ≡ ports.items }
    {
        self.ports = ports;
    }

    /// The ports in order.
    pub fn ports(&self) -> &[Port]
        ensures ports { result.now ≡ self.now }
        ensures numbers { AreNumbered 0 self.now }
        ensures few { length self.now ≤ 8 }
    {
        &self.ports
    }

    /// The port of this number, or `None` where there is none.
    pub fn port(&self, number: PortNo) -> Option<&Port>
        ensures value { option_copied result ≡ slice_get self.now number }
        ensures number { IfSome result (λ port. port.now.number ≡ number) }
    {
        port_at(&self.ports, number.get() as usize)
    }

    /// How many commands are live at all ports.
    #[tactic(auto, using(crate::proofs::Hosts::lives_more))]
    pub fn live(&self) -> u32
        ensures { result ≡ lives_of (journals_in self.now) }
    {
        let mut sum = 0;
        for port in &self.ports {
            sum += port.live();
        }
        sum
    }
}

// The port at a place, or `None` where there is none.
fn port_at(ports: &[Port], place: usize) -> Option<&Port>
    ensures { option_copied result ≡ slice_get ports.now place }
{
    ports.get(place)
}
