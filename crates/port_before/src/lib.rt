//! The rules of a port as they were before ports switched by frames, and before they gave up waiting: where a head
//! has neither, the steps of each legal journal are still those of the older rules. The older rules stand in `specs/`;
//! functions with an empty body carry the laws.
#![tactic(auto)]

mod laws;

pub use laws::{coming_times_before_drain, steps_before_drain, steps_before_switching};
