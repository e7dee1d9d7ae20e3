//! What the steps of a port tell by: an act where something holds, a drive with its names, and the walks over the tags.
#![tactic(auto)]

mod naming;
mod tell;
mod walks;

pub use naming::{drive_of, identified};
pub use tell::{drain_if, freeze_if, is_more, nothing, raise, request_if};
pub use walks::{answer_all, condemn_all};
