//! The resets of a link: how long each try waits, and what is seen of one that is open. No call takes memory.
#![tactic(auto)]

mod look;
mod wait;

pub use look::{ResetLook, reset_look};
pub use wait::{RESET_TRIES, reset_wait};
