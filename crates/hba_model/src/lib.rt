//! The controller of a port: which tags are active and done, the causes of its interrupt, the registers of
//! what failed, and the interrupt line. Nothing here takes memory.
#![tactic(auto)]

mod bits;
mod causes;
mod hba;

pub use causes::{Cause, Causes};
pub use hba::Hba;
