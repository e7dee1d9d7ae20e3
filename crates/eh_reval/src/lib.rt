//! The drive that answers after a reset: how long each try for its identity waits, whether it is the drive that was
//! there before, and the speed of its link after a hotplug. No call takes memory.
#![tactic(auto)]

mod found;
mod probe_times;
mod wait;

pub use found::{Found, compare};
pub use probe_times::{ProbeTimes, probe_limit};
pub use wait::{IDENT_TRIES, ident_wait};
