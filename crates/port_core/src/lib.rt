//! A port: its journal is the one that the rules give for its head and its steps. A host: its ports in the
//! order of their numbers.
#![tactic(auto)]

mod act_ranges;
mod host;
mod journal_ranges;
mod laws;
mod machine;
mod number_ranges;
mod port;
mod quiet;
mod ranges;
mod station;
mod text;

pub use host::Host;
pub use laws::{
    actors_in_turn, legal_pasts_are_recoverable, one_in_line_order, one_text_of_journals,
    runs_are_legal, script_journals_are_legal,
};
pub use machine::Machine;
pub use port::Port;
pub use station::Station;
pub use text::{put_host, put_port};
