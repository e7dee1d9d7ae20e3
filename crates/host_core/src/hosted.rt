ghost use Rattle.std.specs.Prelude.{◌≡◌, ◌≤◌, ◌==◌, ◌∷◌, [], filter, length, IfOk, OnOk};
ghost use Rattle.ata_trace.specs.declared.who.Who.TheVariants.{Actor};
ghost use Rattle.host_core.specs.Calm.{AreCalmSteps, AreWellEnded, HaveAtMost};
ghost use Rattle.host_core.specs.Hosting.{IsHostOf, IsPlayed};
ghost use Rattle.port_core.specs.Hosts.{at_port, journals_in, stepped, with_room};
ghost use Rattle.port_rules.specs.Boot.{boot_entry};

use crate::settling::settle_all;
use crate::turns::Turns;
use ata_base::{ActorNo, OutOfMemory, PortNo};
use ata_script::{PortHead, Script};
use ata_trace::{Step, Who};
use port_core::{Host, Port};
use std::alloc::Global;

/// All ports of a script, started: each journal is the boot entry of its port's head. Where memory is
/// wanted there is no host.
#[tactic(auto, using(crate::proofs::FewPorts::few_ports))]
pub fn boot(alloc: Global, script: &Script) -> Result<Host, OutOfMemory>
    ensures { IfOk result (λ host. IsHostOf 0 script.now.head [] host) }
{
    started(alloc, script.head.items(), script.steps.items())
}

/// All ports of a script after its steps: each took those at its number in the order of their lines, for
/// their actors, of whom each has its steps at that port numbered from 0. Then each port is settled, with at
/// most so many rounds. Where no step of the script disturbs a port and there are as many rounds as commands
/// were accepted at a port, no command is live and each is answered `ok`. Where memory is wanted there is no host.
#[tactic(auto, using(crate::proofs::FewPorts::few_ports))]
pub fn replay(alloc: Global, script: &Script, rounds: u32) -> Result<Host, OutOfMemory>
    ensures host { IfOk result (λ host. IsHostOf rounds script.now.head script.now.steps host) }
    ensures calm { AreCalmSteps script.now.steps → IfOk result (λ host. HaveAtMost rounds (journals_in host) → AreWellEnded (journals_in host)) }
{
    let mut host = hosted(alloc, script.head.items(), script.steps.items())?;
    let _ = settle_all(&mut host, rounds)?;
    Ok(host)
}

/// Starts a port, as `Port::start` does, and asks for memory ahead for those of these steps that are its.
pub fn start_port(
    alloc: Global,
    number: PortNo,
    head: &PortHead,
    steps: &[(ActorNo, PortNo, Step)],
) -> Result<Port, OutOfMemory>
    ensures number { IfOk result (λ p. p.number ≡ number) }
    ensures head { IfOk result (λ p. p.head ≡ head.now) }
    ensures entries { IfOk result (λ p. p.entries ≡ boot_entry head.now ∷ []) }
{
    let mut port = Port::start(alloc, number, head)?;
    port.make_room(steps_at(steps, number));
    Ok(port)
}

// How many of these steps are at the port of this number.
fn steps_at(steps: &[(ActorNo, PortNo, Step)], number: PortNo) -> usize
    ensures { result ≡ length (filter (λ taken. taken.1 == number) steps.now) }
{
    steps.iter().filter(|taken| taken.1 == number).count()
}

// Ports with these heads, each booted. Memory is asked for ahead for these steps.
#[tactic(auto, using(crate::proofs::TakenSteps::host_more, crate::proofs::TakenSteps::host_count))]
fn started(
    alloc: Global,
    heads: &[PortHead],
    steps: &[(ActorNo, PortNo, Step)],
) -> Result<Host, OutOfMemory>
    requires { length heads.now ≤ 8 }
    ensures { IfOk result (λ host. IsPlayed heads.now [] host) }
{
    let mut host = Host::new(alloc);
    for number in 0..heads.len() {
        let port = start_port(alloc, PortNo::at(number as u8), &heads[number], steps)?;
        host.push(port)?;
    }
    Ok(host)
}

// Ports with these heads, after these steps. Each step goes to the port of its number, and is passed over where
// there is none.
#[tactic(auto, using(crate::proofs::TakenSteps::replayed_none, crate::proofs::TakenSteps::replayed_more, crate::proofs::TakenSteps::replayed_all))]
fn hosted(
    alloc: Global,
    heads: &[PortHead],
    steps: &[(ActorNo, PortNo, Step)],
) -> Result<Host, OutOfMemory>
    requires { length heads.now ≤ 8 }
    ensures { IfOk result (λ host. IsPlayed heads.now steps.now host) }
{
    let mut host = started(alloc, heads, steps)?;
    let mut turns = Turns::new();
    for taken in steps {
        let seq = turns.next(taken.1, taken.0);
        take(&mut host, taken.1, taken.0, seq, &taken.2)?;
    }
    Ok(host)
}

// The port of this number takes the `seq`-th step of an actor.
#[tactic(auto, using(crate::proofs::TakenSteps::room_made))]
fn take(
    host: &mut Host,
    number: PortNo,
    actor: ActorNo,
    seq: u64,
    step: &Step,
) -> Result<(), OutOfMemory>
    ensures { OnOk result (host.new ≡ at_port number (stepped (Actor actor) seq step.now) (at_port number with_room host.old)) }
{
    host.reserve(number)?;
    host.step(number, Who::Actor(actor), seq, step);
    Ok(())
}
