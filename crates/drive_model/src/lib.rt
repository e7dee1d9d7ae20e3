//! The simulated drive: a stamp for each of its sectors, the issues that it holds, the faults that were put into it,
//! and how it ends issues, tells its error log and who it is. Only `Drive::new` and `Drive::reserve` take memory.
#![tactic(auto)]

mod act;
mod asked;
mod assigned;
mod cause;
mod counts;
mod drive;
mod frame;
mod held;
mod holding;
mod log_fault;
mod log_page;
mod log_told;
mod marks;
mod outcome;
mod queued_error;
mod sector_stamps;
mod sectors;

pub use act::DriveAct;
pub use assigned::{Assigned, Failure};
pub use cause::Cause;
pub use counts::Counts;
pub use drive::Drive;
pub use held::Held;
pub use log_fault::LogFault;
pub use log_told::LogTold;
pub use outcome::Outcome;
pub use queued_error::QueuedError;
