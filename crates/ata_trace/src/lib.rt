//! The language of journals: what a port was asked, what it did, the journal that keeps both, and
//! the lines that tell them, both ways.

#![tactic(auto)]

mod act;
mod act_copy;
mod act_text;
mod acts;
mod before;
mod entry;
mod journal;
mod kept;
mod last;
mod laws;
mod line;
mod names;
mod number;
mod open_entry;
mod parts;
mod pieces;
mod reading;
mod refusal;
mod script_fault;
mod script_op;
mod step;
mod step_reading;
mod step_text;
mod text;
mod told;
mod told_head;
mod who;

pub use act::Act;
pub use acts::{Acts, LentAct};
pub use entry::Entry;
pub use journal::Journal;
pub use laws::{one_act, one_head, one_text};
pub use line::Line;
pub use names::{DriveName, ModelName, SerialName};
pub use open_entry::OpenEntry;
pub use parts::{Parts, Words, same};
pub use reading::value;
pub use refusal::Refusal;
pub use script_fault::ScriptFault;
pub use script_op::ScriptOp;
pub use step::Step;
pub use step_text::put_step;
pub use text::{act_line, head_line, set_act_line, set_head_line};
pub use told::read_act;
pub use told_head::read_head;
pub use who::Who;
