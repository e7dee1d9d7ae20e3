//! Issuing: a command goes under a tag to the controller and the drive; and, of the issues in flight, which is answered
//! next, for which recovery waits, and which are given to recovery. No call takes memory.
#![tactic(auto)]

mod aborting;
mod finding;
mod issuing;

pub use aborting::{abort_all, abort_link};
pub use finding::{next_done, next_waiting};
pub use issuing::issue;
