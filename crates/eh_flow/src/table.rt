ghost use Rattle.std.specs.Prelude.{◌≡◌, ◌+◌, ◌<◌, ◌≤◌, ◌^◌, Some, IfSome};
ghost use Rattle.eh_flow.specs.Table.{recovery_row, deadline_of};
ghost use Rattle.eh_flow.specs.declared.phase.Phase.TheVariants.{Idle, Logs, ResetOpen, IdentOwed, IdentOpen};
ghost use Rattle.eh_reset.specs.ResetWaits.{reset_wait_of};

use crate::observation::Observation;
use crate::phase::Phase;
use crate::row::Row;
use ata_base::{Ms, Place};
use eh_reset::{RESET_TRIES, ResetLook, reset_look, reset_wait};
use eh_reval::{IDENT_TRIES, ident_wait};

/// What the next step of recovery does where it stands at `phase` and this is seen: the row of the table. The time and
/// the longest wait, 35,000 ms, fit 64 bits.
pub fn next(phase: &Phase, seen: &Observation) -> Row
    requires { seen.now.time.n + 35000 < 2 ^ 64 }
    ensures { recovery_row phase.now seen.now ≡ Some result }
{
    match *phase {
        Phase::Idle => idle_row(seen),
        Phase::Logs => logs_row(seen),
        Phase::HostOwed => Row::HostBegin {
            deadline: deadline(seen.time, reset_wait(1)),
        },
        Phase::HostOpen => Row::HostEnd,
        Phase::ResetOwed {
            place,
            attempt,
            ident,
        } => Row::ResetBegin {
            place,
            attempt,
            ident,
            deadline: deadline(seen.time, reset_wait(attempt)),
        },
        Phase::ResetOpen {
            place,
            attempt,
            ident,
            deadline,
        } => reset_row(seen, place, attempt, ident, deadline),
        Phase::IdentOwed { place, attempt } => ident_owed_row(seen, place, attempt),
        Phase::IdentOpen {
            place,
            attempt,
            deadline,
        } => ident_open_row(seen, place, attempt, deadline),
        Phase::Through => Row::Finish,
    }
}

/// The row of a recovery that isn't running.
fn idle_row(seen: &Observation) -> Row
    ensures { recovery_row Idle seen.now ≡ Some result }
{
    if !seen.asked {
        return Row::Nothing;
    }
    match seen.waiting {
        Some(tag) => Row::WaitTag { tag },
        None => Row::Begin,
    }
}

/// The row of a recovery without an autopsy.
fn logs_row(seen: &Observation) -> Row
    ensures { recovery_row Logs seen.now ≡ Some result }
{
    match seen.log {
        Some(place) => Row::Log { place },
        None => Row::Autopsy,
    }
}

/// The row of an open reset.
fn reset_row(seen: &Observation, place: Place, attempt: u8, ident: u8, deadline: Ms) -> Row
    ensures { recovery_row (ResetOpen place attempt ident deadline) seen.now ≡ Some result }
{
    match reset_look(seen.linked, seen.ready, deadline, seen.time) {
        ResetLook::Gone => Row::ResetGone { place },
        ResetLook::Ready => Row::ResetReady { place },
        ResetLook::Late => Row::ResetLate {
            place,
            again: attempt < RESET_TRIES,
        },
        ResetLook::Open_ => Row::ResetWait { place },
    }
}

/// The row of an identity that is owed.
fn ident_owed_row(seen: &Observation, place: Place, attempt: u8) -> Row
    requires { seen.now.time.n + 35000 < 2 ^ 64 }
    ensures { recovery_row (IdentOwed place attempt) seen.now ≡ Some result }
{
    if seen.frozen {
        first_reset(seen, place, attempt)
    } else {
        Row::IdentAsk {
            place,
            attempt,
            deadline: deadline(seen.time, ident_wait(attempt)),
        }
    }
}

/// The row of an identity that was asked for.
fn ident_open_row(seen: &Observation, place: Place, attempt: u8, deadline: Ms) -> Row
    requires { seen.now.time.n + 35000 < 2 ^ 64 }
    ensures { recovery_row (IdentOpen place attempt deadline) seen.now ≡ Some result }
{
    if seen.frozen {
        first_reset(seen, place, attempt)
    } else if seen.answered {
        Row::IdentRead { place }
    } else if deadline.n <= seen.time.n {
        Row::IdentLate {
            place,
            again: attempt < IDENT_TRIES,
        }
    } else {
        Row::IdentWait { place }
    }
}

/// The first try of a reset, over which the identity's try is kept.
fn first_reset(seen: &Observation, place: Place, ident: u8) -> Row
    requires { seen.now.time.n + 35000 < 2 ^ 64 }
    ensures { result ≡ Row.ResetBegin place 1 ident (deadline_of seen.now.time.n (reset_wait_of 1)) }
{
    Row::ResetBegin {
        place,
        attempt: 1,
        ident,
        deadline: deadline(seen.time, reset_wait(1)),
    }
}

/// The deadline of a try that begins at the time `now`.
fn deadline(now: Ms, wait: Option<Ms>) -> Ms
    requires { IfSome wait (λ wait. now.n + wait.n < 2 ^ 64) }
    ensures { result ≡ deadline_of now.n wait }
{
    match wait {
        Some(wait) => Ms { n: now.n + wait.n },
        None => now,
    }
}
