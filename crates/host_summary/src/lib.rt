//! What the journals of a host come to: twelve numbers, and their text.
#![tactic(auto)]

mod counted;
mod counting;
mod printing;
mod summary;
mod summing;
mod worked;

pub use counted::Counted;
pub use printing::put_summary;
pub use summary::Summary;
pub use summing::sum_up;
pub use worked::a_worked_summary;

#[cfg(test)]
mod tests;
