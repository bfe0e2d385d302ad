//! Laws of networks that run a graph: what legal, joined and settled lists of events have to do with its meaning.
#![tactic(auto)]

mod laws;
mod literals;

pub use laws::{
    carried_law, counts_law, flow_law, joined_law, legal_law, picked_law, planned_law, proper_law,
    regions_law, settled_law,
};
pub use literals::{
    counts_on_literals, keys_on_literals, networks_on_literals, regions_on_literals,
};
