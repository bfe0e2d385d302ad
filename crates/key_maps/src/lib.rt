//! Maps whose keys are lists of values: their entries, by ascending key.
#![tactic(auto)]

mod entries;

pub use entries::ascending;
