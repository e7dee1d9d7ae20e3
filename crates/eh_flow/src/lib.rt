//! The flow of a recovery: the table of its rows, from which each step takes the first that fits, and what becomes of
//! each command in the end. No call takes memory.
#![tactic(auto)]

mod finishing;
mod issue_finish;
mod laws;
mod observation;
mod phase;
mod row;
mod table;

pub use finishing::finish;
pub use issue_finish::Finish;
pub use laws::{every_state_has_a_row, frozen_ports_ask_no_identity, rows_keep_to_their_place};
pub use observation::Observation;
pub use phase::Phase;
pub use row::Row;
pub use table::next;
