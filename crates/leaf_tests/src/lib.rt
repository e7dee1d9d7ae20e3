//! The tests of the crates that others stand on, a file or two a crate: each public call once, with values from outside. They
//! stand in one crate of their own, since a crate with tests is proved a second time with them.
#![tactic(auto)]

#[cfg(test)]
mod ata_base_tests;
#[cfg(test)]
mod ata_ident_tests;
#[cfg(test)]
mod ata_io_tests;
#[cfg(test)]
mod ata_lanes_tests;
#[cfg(test)]
mod ata_log_tests;
#[cfg(test)]
mod ata_script_tests;
#[cfg(test)]
mod ata_tf_tests;
#[cfg(test)]
mod ata_trace_acts_tests;
#[cfg(test)]
mod ata_trace_tests;
#[cfg(test)]
mod drive_model_tests;
#[cfg(test)]
mod eh_autopsy_tests;
#[cfg(test)]
mod eh_flow_tests;
#[cfg(test)]
mod eh_reset_tests;
#[cfg(test)]
mod eh_reval_tests;
#[cfg(test)]
mod eh_ring_tests;
#[cfg(test)]
mod eh_verdict_tests;
#[cfg(test)]
mod hba_model_tests;
#[cfg(test)]
mod host_defer_tests;
#[cfg(test)]
mod host_freeze_tests;
#[cfg(test)]
mod host_issue_tests;
#[cfg(test)]
mod host_queue_tests;
#[cfg(test)]
mod host_tags_tests;
#[cfg(test)]
mod host_timer_tests;
#[cfg(test)]
mod link_model_tests;
#[cfg(test)]
mod pmp_model_tests;
