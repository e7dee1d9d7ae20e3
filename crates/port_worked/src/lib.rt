//! Worked journals, computed from the rules of a port alone. Each function has an empty body, and its
//! clause says that the one legal journal of some steps is the one written down; the rows stand in
//! `specs/`, a file a run, each for the mechanism that it shows.
#![tactic(auto)]

mod drains;
mod errors;
mod gate;
mod places;
mod plugs;
mod runs;
mod timeouts;

pub use drains::{gives_up_waiting, progress_before_giving_up, waits_without_drain};
pub use errors::{
    aborted_read, all_faults_of_the_log, failed_power, faults_of_the_log, link_error,
    lost_identity, media_error_among_queued, slower_speed, ten_bad_statuses, three_lost_identities,
    without_allowance,
};
pub use gate::{interrupts_behind_the_gate, kicks_behind_the_gate};
pub use places::{
    empty_place_left_alone, exclusive_place, hot_place_after_host_reset, owned_is_not_answered,
    slow_place_behind_the_host, two_places_in_flight,
};
pub use plugs::{
    another_drive, plugged_before_recovery, three_phy_changes, unplugged_while_recovering,
};
pub use runs::{
    answers_in_tag_order, every_operation, flush_between_queued_writes, no_drive, refusals,
    shallow_queue, stray_interrupt, thirty_two_tags, write_then_read,
};
pub use timeouts::{
    completed_before_recovery, hang, late_but_done, lost_interrupt, second_hang, slow_drive,
};
