ghost use Rattle.std.specs.Prelude.{◌≡◌, ◌++◌, ◌∷◌, ◌&&◌, ℕ, [], suc, length, IfOk, OnOk, OnErr, if◌then◌else◌};
ghost use Rattle.ata_trace.specs.Entries.{past_of};
ghost use Rattle.host_core.specs.Calm.{AreCalmPorts, AreWellEnded, HasAtMost, HaveAtMost, IsCalmPort, IsWellEnded};
ghost use Rattle.host_core.specs.Settled.{AreCutShort, AreSamePorts, IsPartOf, IsSettledInPart, is_idle_entry, round_after, settle_entry};
ghost use Rattle.port_core.specs.Hosts.{heads_in, journals_in, lives_of, settled_in};
ghost use Rattle.port_past.specs.Live.{live};
ghost use Rattle.port_rules.specs.Settle.{are_idle, settling};

use crate::stations::{
    coming, is_idle_last, is_settled, live, now, places, settle_count, stays_legal,
};
use ata_base::{OutOfMemory, Pick, Place, Tick};
use ata_trace::{Step, Who};
use port_core::{Host, Port, Station};

/// Settles each port of a host, in the order of their numbers, as `settle` does. The answer is how many commands are live at
/// all ports. Where nothing has disturbed a port and there are as many rounds as commands were accepted at a port, none is
/// live and each is answered `ok`. Where memory is wanted, one port has the first of its settling entries, those before it
/// have all, and those after it stay.
pub fn settle_all(host: &mut Host, rounds: u32) -> Result<u32, OutOfMemory>
    ensures heads { heads_in host.new ≡ heads_in host.old }
    ensures journals { OnOk result (journals_in host.new ≡ settled_in rounds host.old) }
    ensures live { IfOk result (λ count. count ≡ lives_of (journals_in host.new)) }
    ensures calm { AreCalmPorts host.old → OnOk result (HaveAtMost rounds (journals_in host.new) → AreWellEnded (journals_in host.new)) }
    ensures part { OnErr result (AreCutShort rounds host.old host.new) }
{
    let mut ports = host.take_ports();
    let settled = settle_ports(&mut ports, rounds);
    host.give_ports(ports);
    settled?;
    Ok(host.live())
}

/// Settles each of these ports, in order.
fn settle_ports(ports: &mut [Port], rounds: u32) -> Result<(), OutOfMemory>
    ensures same { AreSamePorts ports.old ports.new }
    ensures settled { OnOk result (journals_in ports.new ≡ settled_in rounds ports.old) }
    ensures calm { AreCalmPorts ports.old → OnOk result (HaveAtMost rounds (journals_in ports.new) → AreWellEnded (journals_in ports.new)) }
    ensures part { OnErr result (AreCutShort rounds ports.old ports.new) }
{
    for place in 0..ports.len() {
        let _ = settle(&mut ports[place], rounds)?;
    }
    Ok(())
}

/// Settles a port: rounds of kick and work at each place, irq, expire and recover, and a tick after an idle one, until no
/// command is live and the port isn't recovering, or so many rounds are made. Its entries are numbered on after the
/// port's earlier entries of the settling. The answer is how many commands are live. Where nothing has disturbed the port
/// and there are as many rounds as commands were accepted, none is live, each is answered `ok`, and no tick is made. Where
/// memory is wanted, the entries so far are the first of them.
pub fn settle<S: Station>(port: &mut S, rounds: u32) -> Result<u32, OutOfMemory>
    ensures number { (S.seen port.new).number ≡ (S.seen port.old).number }
    ensures head { (S.seen port.new).head ≡ (S.seen port.old).head }
    ensures entries { OnOk result ((S.seen port.new).entries ≡ (S.seen port.old).entries ++ settling (S.seen port.old).head rounds (past_of (S.seen port.old).entries)) }
    ensures live { IfOk result (λ count. count ≡ length (live (past_of (S.seen port.new).entries))) }
    ensures calm { IsCalmPort (S.seen port.old) → OnOk result (HasAtMost rounds (S.seen port.new).entries → IsWellEnded (S.seen port.new).entries) }
    ensures part { OnErr result (IsSettledInPart (S.seen port.old).head rounds (S.seen port.old).entries (S.seen port.new).entries) }
{
    stays_legal(port);
    settle_rounds(port, rounds)?;
    Ok(live(port))
}

/// Makes at most so many rounds.
fn settle_rounds<S: Station>(port: &mut S, rounds: u32) -> Result<(), OutOfMemory>
    ensures number { (S.seen port.new).number ≡ (S.seen port.old).number }
    ensures head { (S.seen port.new).head ≡ (S.seen port.old).head }
    ensures entries { OnOk result ((S.seen port.new).entries ≡ (S.seen port.old).entries ++ settling (S.seen port.old).head rounds (past_of (S.seen port.old).entries)) }
    ensures part { OnErr result (IsSettledInPart (S.seen port.old).head rounds (S.seen port.old).entries (S.seen port.new).entries) }
{
    for round in 0..rounds {
        let _ = round;
        if !settle_round(port)? {
            return Ok(());
        }
    }
    Ok(())
}

/// Makes a round, and a tick where it is idle and there is a time to wait for; tells whether a round may follow.
fn settle_round<S: Station>(port: &mut S) -> Result<bool, OutOfMemory>
    ensures number { (S.seen port.new).number ≡ (S.seen port.old).number }
    ensures head { (S.seen port.new).head ≡ (S.seen port.old).head }
    ensures goes { IfOk result (λ follows. (left : ℕ) → (S.seen port.new).entries ++ (if follows then settling (S.seen port.old).head left (past_of (S.seen port.new).entries) else [])
        ≡ (S.seen port.old).entries ++ settling (S.seen port.old).head (suc left) (past_of (S.seen port.old).entries)) }
    ensures part { OnErr result ((left : ℕ) → IsSettledInPart (S.seen port.old).head (suc left) (S.seen port.old).entries (S.seen port.new).entries) }
{
    if is_settled(port) {
        return Ok(false);
    }
    if !play_round(port)? {
        return Ok(true);
    }
    match coming(port) {
        Some(time) => {
            let ms = Tick::at(time.n - now(port).n);
            let _ = take(port, &Step::Tick { ms }, true)?;
            Ok(true)
        }
        None => Ok(false),
    }
}

/// Makes the steps of a round; tells whether all its entries are idle.
fn play_round<S: Station>(port: &mut S) -> Result<bool, OutOfMemory>
    ensures number { (S.seen port.new).number ≡ (S.seen port.old).number }
    ensures head { (S.seen port.new).head ≡ (S.seen port.old).head }
    ensures entries { OnOk result ((S.seen port.new).entries ≡ (S.seen port.old).entries ++ round_after (S.seen port.old).head (S.seen port.old).entries) }
    ensures idle { IfOk result (λ idle. idle ≡ are_idle (round_after (S.seen port.old).head (S.seen port.old).entries)) }
    ensures part { OnErr result (IsPartOf ((S.seen port.old).entries ++ round_after (S.seen port.old).head (S.seen port.old).entries) (S.seen port.old).entries (S.seen port.new).entries) }
{
    let count = places(port);
    let mut idle = true;
    for kicked in 0..count {
        let place = Place::at(kicked);
        idle = take(port, &Step::Kick { place }, idle)?;
    }
    for worked in 0..count {
        let place = Place::at(worked);
        let pick = Pick::at(0);
        idle = take(port, &Step::Work { place, pick }, idle)?;
    }
    let served = take(port, &Step::Irq, idle)?;
    let timed = take(port, &Step::Expire, served)?;
    take(port, &Step::Recover, timed)
}

/// A port takes the next step of its settling; tells whether its entry is idle, where those before it are.
fn take<S: Station>(port: &mut S, step: &Step, idle: bool) -> Result<bool, OutOfMemory>
    ensures number { (S.seen port.new).number ≡ (S.seen port.old).number }
    ensures head { (S.seen port.new).head ≡ (S.seen port.old).head }
    ensures entries { OnOk result ((S.seen port.new).entries ≡ (S.seen port.old).entries ++ settle_entry (S.seen port.old).head (past_of (S.seen port.old).entries) step.now ∷ []) }
    ensures idle { IfOk result (λ still. still ≡ (idle && is_idle_entry (settle_entry (S.seen port.old).head (past_of (S.seen port.old).entries) step.now))) }
    ensures err { OnErr result ((S.seen port.new).entries ≡ (S.seen port.old).entries) }
{
    port.reserve()?;
    let seq = settle_count(port);
    port.step(Who::Settle, seq, step);
    Ok(idle && is_idle_last(port))
}
