//! Places below a bound, of which some are marked.
#![tactic(auto)]

mod counts;
mod marks;

pub use marks::MarkedPlaces;
