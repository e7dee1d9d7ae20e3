//! The steps of a port: each reads the ledger, decides, and tells its acts.
//!
//! An interrupt makes its entry whole, since what its beginning takes is asked before; each other step is told after its
//! entry has begun.
#![tactic(auto)]

mod coming_time;
mod deferral;
mod dispatch;
mod interrupt;
mod kick;
mod start;
mod submit;
mod taken;
mod work;

pub use coming_time::coming;
pub use dispatch::act;
pub use start::boot;
