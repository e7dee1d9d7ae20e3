//! The past of a port and its readings: what the events so far say. The definitions stand in `specs/`, a file
//! a notion; here are the records that they speak of.
#![tactic(auto)]

mod completion;
mod identity_told;
mod judgement;
mod log_of;
mod place_told;
mod task;

pub use completion::Completion;
pub use identity_told::IdentityTold;
pub use judgement::Judgement;
pub use log_of::LogOf;
pub use place_told::{HostTold, PlaceTold};
pub use task::Task;
