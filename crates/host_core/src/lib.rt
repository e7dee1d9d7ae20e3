//! The host: all ports of a script, booted, its steps taken at them, and settled.
#![tactic(auto)]

mod alone;
mod hosted;
mod laws;
mod settling;
mod stations;
mod turns;
mod versions;
mod worked;

pub use alone::play_alone;
pub use hosted::{boot, replay, start_port};
pub use laws::calm_scripts_end_well;
pub use settling::{settle, settle_all};
pub use versions::first_scripts_are_second_too;
pub use worked::a_worked_row;
