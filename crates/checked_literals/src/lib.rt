//! Some programs, each with its whole checked graph.
#![tactic(auto)]

mod laws;

pub use laws::{
    aggregate_is_checked, composite_is_checked, custom_is_checked, filter_is_checked,
    join_is_checked, ports_are_checked, programs_are_refused,
};
