//! The ledger of a port: the entry that began last, and beside it every part that keeps a reading of the past.
#![tactic(auto)]

mod answers;
mod attachments;
mod causes;
mod command_queues;
mod command_table;
mod completion_list;
mod drive_list;
mod drive_notes;
mod eh_parts;
mod flights;
mod identities;
mod issue_notes;
mod ledger;
mod links;
mod live_flags;
mod modes;
mod notes;
mod numbered;
mod port_state;
mod probes;
mod recovery_told;
mod ring_list;
mod task_list;

pub use causes::is_failing;
pub use ledger::Ledger;
