//! The autopsy of failed commands: the kinds of error that registers tell of, whom the error log blames, which kinds
//! stay, what recovery does about them, and which commands are worth a retry. No call takes memory.
#![tactic(auto)]

mod failed_issue;
mod judging;
mod kinds;
mod link;
mod log_blame;
mod retry;

pub use failed_issue::FailedIssue;
pub use judging::final_kinds;
pub use kinds::{analyse_regs, analyse_serror, reduce};
pub use link::action;
pub use log_blame::blame;
pub use retry::worth_retry;
