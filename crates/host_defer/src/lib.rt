//! Whether a command may be issued now, and what defers it where it may not. Nothing here takes memory.
#![tactic(auto)]

mod deferral;
mod view;

pub use deferral::may_issue;
pub use view::View;
