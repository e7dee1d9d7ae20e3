//! The kernels under the ATA pages and the error ring: the sum of a page's bytes, the byte that seals it, and the
//! counts of a window of errors. None takes memory or can fail.
#![tactic(auto)]

mod counts;
mod sum;

pub use counts::count_cats;
pub use sum::{seal, sum512};
