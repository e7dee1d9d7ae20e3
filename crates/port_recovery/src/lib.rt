//! A recover step: where recovery stands, what it sees of its port, and the acts of its row.
#![tactic(auto)]

mod autopsied;
mod begun;
mod findings;
mod finishing;
mod identities;
mod issues;
mod judging;
mod log;
mod observing;
mod recording;
mod recovering;
mod resets;
mod standing;
mod tallying;
mod verdicts;

pub use recovering::recover;
pub use standing::phase;
