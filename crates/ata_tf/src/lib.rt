//! Frames: the bytes in which a host and a drive exchange commands and their outcomes, both ways,
//! and the table of commands. Nothing here takes memory.
#![tactic(auto)]

mod command;
mod device_to_host;
mod fis;
mod host_to_device;
mod set_device_bits;
mod taskfile;

pub use command::{of_op, to_op};
pub use device_to_host::{from_d2h, to_d2h};
pub use host_to_device::{from_h2d, to_h2d};
pub use set_device_bits::{from_sdb, to_sdb};
pub use taskfile::Taskfile;
