//! Deadlines of the issues in flight: which are due at a time, which time comes next, and when a quiet port gives
//! up waiting. No call takes memory.
#![tactic(auto)]

mod coming_time;
mod drain;
mod due_tags;

pub use coming_time::{coming, lesser, time_above};
pub use drain::{DRAIN_WAIT, drain_now};
pub use due_tags::due;
