ghost use Rattle.std.specs.Prelude.{◌≡◌, ◌+◌, ◌<◌, ◌≤◌, ◌^◌, ◌∷◌, [], length, IfOk};
ghost use Rattle.host_summary.specs.Summary.{summary_of};
ghost use Rattle.host_summary.specs.Sums.{AreSummariesOf, IsSummaryOf, plus};
ghost use Rattle.port_core.specs.Weave.{asked_at, journals_of};
ghost use Rattle.port_rules.specs.Settle.{settled_journal};

use crate::counted::Counted;
use crate::counting::{nothing, submitted};
use crate::summary::Summary;
use ata_base::{ActorNo, OutOfMemory, PortNo};
use ata_script::{PortHead, Script};
use ata_trace::Step;
use host_core::play_alone;
use std::alloc::Global;
use std::thread::{Threads, map_indices};

/// What the journals of a script's ports come to, each settled with at most so many rounds: their summary, at most 524,288
/// commands live. The ports are played at once, each on a thread of its own, or in the caller where no thread can be made,
/// and no journal is kept. Where memory is wanted there is no summary.
#[tactic(auto, using(host_core::proofs::FewPorts::few_ports))]
pub fn sum_up<R: Threads + Sync>(
    rt: &R,
    alloc: Global,
    script: &Script,
    rounds: u32,
) -> Result<Summary, OutOfMemory>
    ensures value { IfOk result (λ s. s ≡ summary_of script.now.steps (journals_of rounds script.now.head script.now.steps)) }
    ensures few { IfOk result (λ s. s.live ≤ 524288) }
{
    sum_ports(rt, alloc, script.head.items(), script.steps.items(), rounds)
}

// The same of the ports with these heads, each after those of these steps that are at it.
fn sum_ports<R: Threads + Sync>(
    rt: &R,
    alloc: Global,
    heads: &[PortHead],
    steps: &[(ActorNo, PortNo, Step)],
    rounds: u32,
) -> Result<Summary, OutOfMemory>
    requires few { length heads.now ≤ 8 }
    ensures value { IfOk result (λ s. s ≡ summary_of steps.now (journals_of rounds heads.now steps.now)) }
    ensures few { IfOk result (λ s. s.live ≤ 524288) }
{
    let counted = |place: usize| -> Result<Summary, OutOfMemory>
        requires { (place < length heads.now) × (length heads.now ≤ 8) }
        ensures { IfOk result (IsSummaryOf rounds heads.entry.now steps.entry.now place) }
    { count_port(alloc, PortNo::at(place as u8), &heads[place], steps, rounds) };
    match map_indices(rt, alloc, heads.len(), &counted) {
        Ok(ports) => total(heads, steps, rounds, &ports),
        Err(_) => Err(OutOfMemory),
    }
}

// What the journal of one port comes to.
fn count_port(
    alloc: Global,
    number: PortNo,
    head: &PortHead,
    steps: &[(ActorNo, PortNo, Step)],
    rounds: u32,
) -> Result<Summary, OutOfMemory>
    ensures value { IfOk result (λ s. s ≡ summary_of [] (settled_journal rounds head.now (asked_at number steps.now) ∷ [])) }
    ensures few { IfOk result (λ s. s.live ≤ 65536) }
{
    let mut port = Counted::start(alloc, number, head)?;
    let _ = play_alone(&mut port, steps, rounds)?;
    Ok(port.summary())
}

// The sum of the ports, where each was counted, with the submits of these steps.
fn total(
    heads: &[PortHead],
    steps: &[(ActorNo, PortNo, Step)],
    rounds: u32,
    ports: &[Result<Summary, OutOfMemory>],
) -> Result<Summary, OutOfMemory>
    requires ports { AreSummariesOf rounds heads.now steps.now ports.now }
    requires few { length heads.now ≤ 8 }
    ensures value { IfOk result (λ s. s ≡ summary_of steps.now (journals_of rounds heads.now steps.now)) }
    ensures few { IfOk result (λ s. s.live ≤ 524288) }
{
    let _ = rounds;
    let mut total = nothing(submitted(steps) as u64, 0);
    for place in 0..heads.len() {
        match &ports[place] {
            Ok(port) => add(&mut total, port),
            Err(_) => return Err(OutOfMemory),
        }
    }
    Ok(total)
}

// One summary more.
fn add(total: &mut Summary, more: &Summary)
    requires { total.old.live + more.now.live < 2 ^ 64 }
    ensures { total.new ≡ plus total.old more.now }
{
    total.commands = total.commands.saturating_add(more.commands);
    total.accepted = total.accepted.saturating_add(more.accepted);
    total.refused = total.refused.saturating_add(more.refused);
    total.issued = total.issued.saturating_add(more.issued);
    total.ok = total.ok.saturating_add(more.ok);
    total.failed = total.failed.saturating_add(more.failed);
    total.nodev = total.nodev.saturating_add(more.nodev);
    total.retried = total.retried.saturating_add(more.retried);
    total.runs = total.runs.saturating_add(more.runs);
    total.recorded = total.recorded.saturating_add(more.recorded);
    total.entries = total.entries.saturating_add(more.entries);
    total.live += more.live;
}
