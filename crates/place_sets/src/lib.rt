//! Sets of places: numbers below a bound, each at most once, in the order in which they came.
#![tactic(auto)]

mod place_set;

pub use place_set::PlaceSet;
