ghost use Rattle.std.specs.Thread.{IsSync};
ghost use Rattle.std.specs.Prelude.{◌≡◌, ◌≢◌, ◌+◌, ◌<◌, ◌≤◌, [], length, map, All, IfOk};
ghost use Rattle.std.specs.Bool.{OnFalse};
ghost use Rattle.port_threads.specs.Held.{at_of};
ghost use Rattle.port_threads.specs.Stiles.{AllNew, first_pass};
ghost use Rattle.port_threads.specs.Walks.{AreWovenFrom, Walked};
ghost use Rattle.port_threads.specs.Weave.{IsRunOf};
ghost use Rattle.turnstile.specs.Passes.{place};

use crate::desk::Desk;
use crate::gate::Gate;
use crate::passes::Passes;
use crate::short::Short;
use crate::walks::walk;
use ata_base::{ActorNo, OutOfMemory, PortNo};
use ata_script::{PortHead, Script};
use ata_trace::Step;
use host_core::start_port;
use port_core::Host;
use std::alloc::Global;
use std::sync::Wait;
use std::thread::{Threads, join};
use turnstile::Turnstile;

// How many actors there are at most: 0 to 31.
const ACTORS: u8 = 32;

/// Runs every actor of the script that has a step, each on a thread of its own, or in the caller where no thread can be made,
/// and joins them all. The ports aren't settled. In the journal of each port each actor's entries are its steps there in the
/// order of their lines, each once, numbered from 0, and behind the boot entry there are no others. Refused where there was
/// no memory. Who has a turn when isn't said, nor that the call returns.
#[tactic(auto, using(host_core::proofs::FewPorts::few_ports))]
pub fn run_actors<R: Threads + Wait + Sync, G: Gate + Sync>(
    rt: &R,
    alloc: Global,
    script: &Script,
    gate: &G,
) -> Result<Host, OutOfMemory>
    ensures { IfOk result (λ host. IsRunOf script.now.head script.now.steps host) }
{
    few_actors(script.steps.items());
    let (desks, passes) = open(alloc, script.head.items(), script.steps.items())?;
    let passes = run_from(rt, script, desks.as_slice(), passes, gate, 0)?;
    passes.close(alloc, desks)
}

// Runs the actors from one number on, each on a thread of its own. The passes have no own entries yet.
fn run_from<R: Threads + Wait + Sync, G: Gate + Sync>(
    rt: &R,
    script: &Script,
    desks: &[Turnstile<Desk>],
    passes: Passes,
    gate: &G,
    from: u8,
) -> Result<Passes, OutOfMemory>
    requires from { from ≤ 32 }
    requires made { map at_of passes ≡ map place desks.now }
    requires shares { All (λ h. 33 ≤ h.share + from) passes }
    requires fresh { All (λ h. h.own ≡ []) passes }
    requires few { All (λ line. line.0 < 32) script.now.steps }
    ensures { IfOk result (λ q. AreWovenFrom from script.now.steps passes q) }
{
    if from >= ACTORS {
        return Ok(passes);
    }
    let next = from + 1;
    if !has_step(script.steps.items(), from) {
        return run_from(rt, script, desks, passes, gate, next);
    }
    let (rest, mine) = passes.split(desks);
    let (mine, rest) = join(
        rt,
        || -> Result<Passes, Short>
            requires from { from < 32 }
            requires made { map at_of mine ≡ map place desks.now }
            ensures { IfOk result (λ q. Walked from script.entry.now.steps mine q) }
        { walk(rt, ActorNo::at(from), script, desks, mine, gate) },
        || -> Result<Passes, OutOfMemory>
            requires sync { IsSync R.row × IsSync G.row }
            requires next { next ≤ 32 }
            requires made { map at_of rest ≡ map place desks.now }
            requires shares { All (λ h. 33 ≤ h.share + next) rest }
            requires fresh { All (λ h. h.own ≡ []) rest }
            requires few { All (λ line. line.0 < 32) script.now.steps }
            ensures { IfOk result (λ q. AreWovenFrom next script.entry.now.steps rest q) }
        { run_from(rt, script, desks, rest, gate, next) },
    );
    match (mine, rest) {
        (Ok(mine), Ok(rest)) => Ok(rest.join(desks, mine)),
        _ => Err(OutOfMemory),
    }
}

// Whether the actor of this number has a step.
fn has_step(lines: &[(ActorNo, PortNo, Step)], actor: u8) -> bool
    ensures { OnFalse result (All (λ line. line.0 ≢ actor) lines.now) }
{
    lines.iter().any(|line| line.0.get() == actor)
}

// The actors of lines are below 32. It changes nothing.
#[tactic(auto, using(crate::proofs::ActorSteps::few_more, crate::proofs::ActorSteps::few_all))]
fn few_actors(lines: &[(ActorNo, PortNo, Step)])
    ensures { All (λ line. line.0 < 32) lines.now }
{
    for line in lines {
        let _ = line.0.get();
    }
}

// A port for each head, booted, its turnstile and its first pass. Memory is asked for ahead for these steps.
fn open(
    alloc: Global,
    heads: &[PortHead],
    steps: &[(ActorNo, PortNo, Step)],
) -> Result<(Vec<Turnstile<Desk>>, Passes), OutOfMemory>
    requires few { length heads.now ≤ 8 }
    ensures passes { IfOk result (λ r. r.1 ≡ map first_pass r.0.items) }
    ensures desks { IfOk result (λ r. AllNew 0 heads.now r.0.items) }
{
    let mut desks = Vec::with_capacity(alloc, heads.len())?;
    let mut passes = Passes::new();
    for number in 0..heads.len() {
        let port = start_port(alloc, PortNo::at(number as u8), &heads[number], steps)?;
        let Ok((desk, pass)) = Turnstile::new(alloc, Desk::new(port)) else {
            return Err(OutOfMemory);
        };
        desks.push_reserved(desk);
        passes.push(pass);
    }
    Ok((desks, passes))
}
