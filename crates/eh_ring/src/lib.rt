//! The ring of a place's last 32 errors, and the counts in a window of it. After `Ring::new` no call takes memory.
#![tactic(auto)]

mod counts;
mod entry;
mod error_category;
mod ring;
mod rule;

pub use counts::Counts;
pub use entry::RingEntry;
pub use error_category::Category;
pub use ring::Ring;
pub use rule::category;
