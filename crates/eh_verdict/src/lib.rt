//! The verdict over a place's error ring, and what is done about it. No call takes memory.
#![tactic(auto)]

mod action;
mod error_verdict;
mod judging;
mod steps;

pub use action::decide;
pub use error_verdict::Verdict;
pub use judging::{verdict, verdict_with};
pub use steps::{down_mode, down_speed};
