//! What regions of operators that run in replicas give.
#![tactic(auto)]

mod laws;

pub use laws::{
    numbers_law, one_item_law, plan_fronts_law, region_fronts_law, region_law, region_links_law,
    regions_on_literals, replica_state_law,
};
