//! The page of 512 bytes by which a drive tells which queued command failed, and how (ACS-3, NCQ Command Error log,
//! log address 10h), both ways. No call takes memory.
#![tactic(auto)]

mod error;
mod page;
mod reading;

pub use error::LogError;
pub use page::build;
pub use reading::read;
