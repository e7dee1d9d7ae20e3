//! Actors on threads: each walks its own lines of a script, and enters the ports of those lines, each through a turnstile of
//! its own. So actors at different ports don't wait for each other.
#![tactic(auto)]

mod desk;
mod gate;
mod laws;
mod passes;
mod runs;
mod short;
mod walks;

pub use desk::Desk;
pub use gate::{Gate, NoGate};
pub use laws::calm_runs_stay_calm;
pub use passes::Passes;
pub use runs::run_actors;
pub use short::Short;
pub use walks::walk;

#[cfg(test)]
mod tests;
