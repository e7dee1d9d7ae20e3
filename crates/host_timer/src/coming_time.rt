ghost use Rattle.std.specs.Prelude.{◌≡◌, ◌<◌, ◌^◌, option_map, IfSome};
ghost use Rattle.host_timer.specs.Due.{drain_time};
ghost use Rattle.host_timer.specs.Coming.{deadline_in, coming_of, time_above, lesser};

use crate::drain::DRAIN_WAIT;
use ata_base::Ms;
use host_tags::{InFlight, Slots};

/// The least time above `now` for which a port waits: the deadlines of the issues in flight that recovery doesn't own,
/// and where the port is to give up waiting once it has been quiet for 3,000 ms, `quiet` and these. `None` exactly where
/// no such time is above `now`. The time at which the port gives up has to fit u64.
pub fn coming(slots: &Slots, now: Ms, quiet: Option<Ms>) -> Option<Ms>
    requires { IfSome quiet (λ since. drain_time since.n < 2 ^ 64) }
    ensures { option_map (λ time. time.n) result ≡ coming_of now.n (option_map (λ since. since.n) quiet) slots.now }
{
    let flights = slots.flights();
    let mut least = None;
    for slot in flights {
        let deadline = deadline_in(slot);
        let waited = time_above(deadline, now);
        least = lesser(least, waited);
    }
    let give_up = drain_time(quiet);
    let waited = time_above(give_up, now);
    let next = lesser(least, waited);
    as_time(next)
}

/// This many milliseconds as a time.
fn as_time(time: Option<u64>) -> Option<Ms>
    ensures { option_map (λ time. time.n) result ≡ time }
{
    match time {
        Some(n) => Some(Ms { n }),
        None => None,
    }
}

/// The deadline of a slot's issue, in milliseconds, where recovery doesn't own the issue.
fn deadline_in(slot: &Option<InFlight>) -> Option<u64>
    ensures { result ≡ deadline_in slot.now }
{
    match slot {
        Some(f) if !f.owned => Some(f.deadline.n),
        _ => None,
    }
}

/// The time at which a port gives up waiting, in milliseconds.
fn drain_time(quiet: Option<Ms>) -> Option<u64>
    requires { IfSome quiet (λ since. drain_time since.n < 2 ^ 64) }
    ensures { result ≡ option_map drain_time (option_map (λ since. since.n) quiet) }
{
    match quiet {
        Some(since) => Some(since.n + DRAIN_WAIT),
        None => None,
    }
}

/// The time, in ms, where it is above `now`; `None` where it isn't, or there is none.
pub fn time_above(time: Option<u64>, now: Ms) -> Option<u64>
    ensures { result ≡ time_above now.n time }
{
    match time {
        Some(time) if time > now.n => Some(time),
        _ => None,
    }
}

/// The lesser of two times in ms, of which either may be missing; `None` where both are.
pub fn lesser(a: Option<u64>, b: Option<u64>) -> Option<u64>
    ensures { result ≡ lesser a b }
{
    match (a, b) {
        (Some(a), Some(b)) => Some(a.min(b)),
        (None, b) => b,
        (a, None) => a,
    }
}
