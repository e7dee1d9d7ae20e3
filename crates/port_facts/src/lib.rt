//! What each event of a legal journal of a port finds in its past, and what stands between its entries: the facts from which
//! the laws follow. They are proved of the rules; functions with an empty body carry them.
#![tactic(auto)]

mod reached;

pub use reached::{entries_keep_what_is_reached, legal_journals_are_reached};
