//! The script: its lines, what they say, and the first fault.
#![tactic(auto)]

mod draft;
mod drive_head;
mod drives;
mod fault_words;
mod fields;
mod grammar;
mod head;
mod head_words;
mod laws;
mod lines;
mod port_head;
mod refusal;
mod script;
mod script_error;
mod standing;
mod step_words;
mod steps;
mod submit_words;
mod writer;

pub use drive_head::DriveHead;
pub use drives::Drives;
pub use grammar::read;
pub use head::Head;
pub use laws::{one_script, reads_back, words_are_said};
pub use port_head::PortHead;
pub use script::Script;
pub use script_error::ScriptError;
pub use steps::Steps;
pub use writer::write;
