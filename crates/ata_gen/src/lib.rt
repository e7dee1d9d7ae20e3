//! The generator: for each number a script of two ports, drawn by a linear congruence.
#![tactic(auto)]

mod lines;
mod ports;
mod script;
mod worked;

pub use script::script_of;
pub use worked::worked_lines;

#[cfg(test)]
mod tests;
