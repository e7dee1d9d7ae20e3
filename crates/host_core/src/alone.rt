ghost use Rattle.std.specs.Prelude.{◌≡◌, ◌++◌, ◌∷◌, [], length, IfOk, OnOk};
ghost use Rattle.ata_trace.specs.Entries.{past_of};
ghost use Rattle.ata_trace.specs.declared.who.Who.TheVariants.{Actor};
ghost use Rattle.port_core.specs.Weave.{asked_at};
ghost use Rattle.port_past.specs.Live.{live};
ghost use Rattle.port_rules.specs.Boot.{boot_entry};
ghost use Rattle.port_rules.specs.Legal.{entry_after};
ghost use Rattle.port_rules.specs.Run.{run};
ghost use Rattle.port_rules.specs.Settle.{settled_journal};

use crate::settling::settle;
use crate::stations::number;
use crate::turns::Turns;
use ata_base::{ActorNo, OutOfMemory, PortNo};
use ata_trace::{Step, Who};
use port_core::Station;

/// A port that has booted is played alone, as it is after `replay`: it takes those of these steps that are at its number, in
/// the order of their lines, for their actors, and is settled with at most so many rounds. The answer is how many commands
/// are live.
pub fn play_alone<S: Station>(
    port: &mut S,
    steps: &[(ActorNo, PortNo, Step)],
    rounds: u32,
) -> Result<u32, OutOfMemory>
    requires { (S.seen port.old).entries ≡ boot_entry (S.seen port.old).head ∷ [] }
    ensures number { (S.seen port.new).number ≡ (S.seen port.old).number }
    ensures head { (S.seen port.new).head ≡ (S.seen port.old).head }
    ensures entries { OnOk result ((S.seen port.new).entries ≡ settled_journal rounds (S.seen port.old).head (asked_at (S.seen port.old).number steps.now)) }
    ensures live { IfOk result (λ count. count ≡ length (live (past_of (S.seen port.new).entries))) }
{
    play(port, steps)?;
    settle(port, rounds)
}

// The port before it is settled.
#[tactic(auto, using(crate::proofs::AloneLemmas::alone_all))]
fn play<S: Station>(port: &mut S, steps: &[(ActorNo, PortNo, Step)]) -> Result<(), OutOfMemory>
    requires { (S.seen port.old).entries ≡ boot_entry (S.seen port.old).head ∷ [] }
    ensures number { (S.seen port.new).number ≡ (S.seen port.old).number }
    ensures head { (S.seen port.new).head ≡ (S.seen port.old).head }
    ensures entries { OnOk result ((S.seen port.new).entries ≡ run (S.seen port.old).head (asked_at (S.seen port.old).number steps.now)) }
{
    let here = number(port);
    let mut turns = Turns::new();
    for taken in steps {
        let seq = turns.next(taken.1, taken.0);
        if taken.1 == here {
            take(port, taken.0, seq, &taken.2)?;
        }
    }
    Ok(())
}

// The port takes the `seq`-th step of an actor.
fn take<S: Station>(port: &mut S, actor: ActorNo, seq: u64, step: &Step) -> Result<(), OutOfMemory>
    ensures number { (S.seen port.new).number ≡ (S.seen port.old).number }
    ensures head { (S.seen port.new).head ≡ (S.seen port.old).head }
    ensures entries { OnOk result ((S.seen port.new).entries ≡ (S.seen port.old).entries
        ++ entry_after (S.seen port.old).head (past_of (S.seen port.old).entries) (Actor actor) seq step.now ∷ []) }
{
    port.reserve()?;
    port.step(Who::Actor(actor), seq, step);
    Ok(())
}
