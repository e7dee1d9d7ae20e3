//! The registers of a port multiplier: its own, and those of its device ports. Nothing here takes memory.
#![tactic(auto)]

mod pmp;

pub use pmp::Pmp;
