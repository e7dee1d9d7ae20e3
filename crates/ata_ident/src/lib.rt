//! The page of 512 bytes by which a drive tells who it is (ACS-3, IDENTIFY DEVICE), both ways. No call takes memory.
#![tactic(auto)]

mod drive;
mod error;
mod page;
mod reading;
mod text;
mod writer;

pub use drive::same;
pub use error::IdentError;
pub use page::build;
pub use reading::read;
