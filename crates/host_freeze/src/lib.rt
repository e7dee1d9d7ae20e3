//! The gatekeeper of a port: whether the port is frozen, whether recovery is asked for, and whether it runs. No call
//! takes memory.
#![tactic(auto)]

mod gatekeeper;

pub use gatekeeper::Gatekeeper;
