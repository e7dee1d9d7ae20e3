//! The steps by which time passes and the world changes: a lost interrupt and one without cause, the clock and the timer,
//! drives that are plugged and unplugged, and faults that are put in.
#![tactic(auto)]

mod clock;
mod injecting;
mod line;
mod plugging;
mod timer;

pub use clock::tick;
pub use injecting::inject;
pub use line::{lose, stray};
pub use plugging::{plug, unplug};
pub use timer::{expire, waits_for_drain};
