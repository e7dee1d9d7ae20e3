//! What stands of every legal past of a port between its entries.
#![tactic(auto)]

mod laws;

pub use laws::{
    all_stands, all_stays, answered_issues_are_silent, deadlines_are_near,
    deadlines_are_within_the_longest_wait, exclusive_places_are_claimed, failed_issues_fly,
    issues_fly_at_their_device, it_stands, it_stays, live_commands_wait_or_fly,
    queuing_devices_have_queues, reads_stay_on_their_drive, settling_is_legal,
    severed_places_are_told,
};
