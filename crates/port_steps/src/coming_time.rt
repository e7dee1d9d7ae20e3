ghost use Rattle.std.specs.Prelude.{◌≡◌, ◌≤◌, ◌^◌, IfSome, option_copied, option_map};
ghost use Rattle.port_ledger.specs.DriveParts.{drive_of};
ghost use Rattle.port_ledger.specs.LedgerView.{past};
ghost use Rattle.port_past.specs.Drain.{quiet_since};
ghost use Rattle.port_past.specs.Drives.{drive_at};
ghost use Rattle.port_past.specs.PlaceTold.{ident_lates, place_told};
ghost use Rattle.port_recovery.specs.Recoverable.{AreFewTries};
ghost use Rattle.port_rules.specs.Coming.{coming, waits_since};
ghost use Rattle.port_steps.specs.Awaited.{deadline_of, ready_in};

use ata_base::{Ms, Place};
use drive_model::Drive;
use eh_flow::Phase;
use host_timer::{lesser, time_above};
use port_faults::waits_for_drain;
use port_ledger::Ledger;
use port_recovery::phase;

/// The time to which a settling port ticks: the least time above the present for which it waits, in ms, and `None` exactly
/// where there is no such time. These are the deadlines of the issues in flight that recovery doesn't own, the time at
/// which a port gives up waiting, the deadline of an open reset or identity, and of a reset also when its drive is ready.
#[tactic(auto, using(crate::proofs::AwaitedLemmas::coming_is))]
pub fn coming(ledger: &Ledger) -> Option<Ms>
    requires tries { AreFewTries (place_told (past ledger.now)) (ident_lates (past ledger.now)) }
    requires quiet { quiet_since (past ledger.now) ≤ 2 ^ 62 }
    ensures { option_map (λ time. time.n) result ≡ coming ledger.now.head (past ledger.now) }
{
    let now = ledger.clock();
    let stands = phase(ledger);
    let timed = host_timer::coming(ledger.slots(), now, waits_since(ledger));
    let deadline = time_above(deadline_of(&stands), now);
    let ready = time_above(ready_in(ledger, &stands), now);
    let least = lesser(lesser(in_ms(&timed), deadline), ready);
    as_time(least)
}

/// Since when a port is quiet that waits and may give up.
fn waits_since(ledger: &Ledger) -> Option<Ms>
    requires quiet { quiet_since (past ledger.now) ≤ 2 ^ 62 }
    ensures value { option_map (λ since. since.n) result ≡ waits_since ledger.now.head (past ledger.now) }
    ensures early { IfSome result (λ since. since.n ≤ 2 ^ 62) }
{
    if waits_for_drain(ledger) {
        Some(Ms {
            n: ledger.quiet_since(),
        })
    } else {
        None
    }
}

/// The deadline of an open reset or identity.
fn deadline_of(phase: &Phase) -> Option<u64>
    ensures { result ≡ deadline_of phase.now }
{
    match *phase {
        Phase::ResetOpen { deadline, .. } | Phase::IdentOpen { deadline, .. } => Some(deadline.n),
        _ => None,
    }
}

/// When the drive of an open reset is ready, where one is linked.
fn ready_in(ledger: &Ledger, phase: &Phase) -> Option<u64>
    ensures { result ≡ ready_in ledger.now.head (past ledger.now) phase.now }
{
    match *phase {
        Phase::ResetOpen { place, .. } => ready_at(ledger, place),
        _ => None,
    }
}

/// When the drive that is linked at a place is ready.
fn ready_at(ledger: &Ledger, place: Place) -> Option<u64>
    ensures { result ≡ option_map (λ d. d.ready_at.n) (drive_at ledger.now.head (past ledger.now) place) }
{
    match ledger.drive(place) {
        Some(drive) => Some(drive.ready_at().n),
        None => None,
    }
}

/// A time as a number of milliseconds.
fn in_ms(time: &Option<Ms>) -> Option<u64>
    ensures { result ≡ option_map (λ time. time.n) time.now }
{
    match time {
        Some(time) => Some(time.n),
        None => None,
    }
}

/// So many milliseconds as a time.
fn as_time(time: Option<u64>) -> Option<Ms>
    ensures { option_map (λ time. time.n) result ≡ time }
{
    match time {
        Some(n) => Some(Ms { n }),
        None => None,
    }
}
