ghost use Rattle.std.specs.Prelude.{◌≡◌, IfOk};
ghost use Rattle.atahost.specs.Completeness.{HasScript, IsWhole, Stays};
ghost use Rattle.atahost.specs.Headline.{Replays};
ghost use Rattle.atahost.specs.Woven.{AreWovenOf, IsSettledRun};
ghost use Rattle.port_core.specs.Hosts.{journals_in};

use crate::replay::{print, read_script};
use crate::status::Status;
use ata_base::OutOfMemory;
use ata_io::{Sink, Source};
use ata_script::Script;
use host_core::settle_all;
use port_core::Host;
use port_threads::{Gate, run_actors};
use std::alloc::Global;
use std::sync::Wait;
use std::thread::Threads;

/// Runs the script that `source` gives, each of its actors on a thread of its own, settles each port with at most `rounds`
/// rounds, and writes the journals of the ports to `sink`, in their order. The statuses are those of `replay_all`. Actors wait
/// for their turns at a port, so nothing is said of when the call returns.
pub fn run_all<R: Threads + Wait + Sync, S: Source, K: Sink, G: Gate + Sync>(
    rt: &R,
    alloc: Global,
    source: &mut S,
    sink: &mut K,
    rounds: u32,
    gate: &G,
) -> Status
    ensures replays { Replays (AreWovenOf rounds) S.left S.fault_count K.written K.fault_count source.old source.new sink.old sink.new result }
    ensures no_usage { result ≡ Status.Usage → ⊥ }
    ensures complete { HasScript (S.left source.old) → Stays (S.fault_count source.old) (S.fault_count source.new)
        → Stays (K.fault_count sink.old) (K.fault_count sink.new) → IsWhole result }
{
    play(rt, alloc, source, sink, rounds, gate)
}

// Reads, runs, settles and prints.
fn play<R: Threads + Wait + Sync, S: Source, K: Sink, G: Gate + Sync>(
    rt: &R,
    alloc: Global,
    source: &mut S,
    sink: &mut K,
    rounds: u32,
    gate: &G,
) -> Status
    ensures replays { Replays (AreWovenOf rounds) S.left S.fault_count K.written K.fault_count source.old source.new sink.old sink.new result }
    ensures no_usage { result ≡ Status.Usage → ⊥ }
{
    let script = match read_script(alloc, source) {
        Ok(script) => script,
        Err(status) => return status,
    };
    match settled(rt, alloc, &script, rounds, gate) {
        Ok(host) => print(&host, sink),
        Err(_) => Status::OutOfMemory,
    }
}

// The ports of a script after a run of its actors, settled.
#[tactic(auto, using(crate::proofs::WovenLemmas::run_settled))]
fn settled<R: Threads + Wait + Sync, G: Gate + Sync>(
    rt: &R,
    alloc: Global,
    script: &Script,
    rounds: u32,
    gate: &G,
) -> Result<Host, OutOfMemory>
    ensures { IfOk result (λ host. IsSettledRun rounds script.now.head script.now.steps (journals_in host)) }
{
    let mut host = run_actors(rt, alloc, script, gate)?;
    let _ = settle_all(&mut host, rounds)?;
    Ok(host)
}
