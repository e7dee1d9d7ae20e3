ghost use Rattle.std.specs.Prelude.{◌≡◌, length, map, IfOk, IfErr};
ghost use Rattle.port_threads.specs.Held.{at_of};
ghost use Rattle.port_threads.specs.Walks.{Walked, WalkedSome};
ghost use Rattle.turnstile.specs.Passes.{place};

use crate::desk::Desk;
use crate::gate::Gate;
use crate::passes::Passes;
use crate::short::Short;
use ata_base::{ActorNo, OutOfMemory};
use ata_script::Script;
use std::sync::Wait;
use turnstile::Turnstile;

/// Makes the steps of one actor in the order of their lines, each at its port and under its number there, from 0; a line at
/// a port without a turnstile is passed over. Short where there was no memory in a turn: what it made until then stands. It
/// takes no memory of its own, and waits for turns.
pub fn walk<R: Wait, G: Gate>(
    rt: &R,
    actor: ActorNo,
    script: &Script,
    desks: &[Turnstile<Desk>],
    passes: Passes,
    gate: &G,
) -> Result<Passes, Short>
    requires made { map at_of passes ≡ map place desks.now }
    ensures walked { IfOk result (λ q. Walked actor script.now.steps passes q) }
    ensures short { IfErr result (λ e. WalkedSome actor script.now.steps passes e.passes) }
{
    let walker = actor.get();
    let mut passes = passes;
    let mut counts = [0u64; 8];
    let mut made = 0u32;
    for line in script.steps.items() {
        let taker = line.0.get();
        let port = line.1.get() as usize;
        if taker == walker && port < desks.len() {
            let seq = counts[port];
            counts[port] = seq + 1;
            gate.before(walker, made);
            match passes.enter_at(rt, &desks[port], port, walker, seq, &line.2) {
                Ok(()) => {}
                Err(OutOfMemory) => return Err(Short { passes }),
            }
            gate.after(walker, made);
            made = made.saturating_add(1);
        }
    }
    Ok(passes)
}
