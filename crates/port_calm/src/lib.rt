//! Calm ports: where nothing disturbs a port, settling leaves no command live, and each is answered with
//! success. The definitions stand in `specs/`; functions with an empty body carry the laws.
#![tactic(auto)]

mod calm;

pub use calm::{
    calm_ports_end_well, calm_ports_stay_calm, rounds_for_all_are_enough, settling_has_legal_acts,
};
