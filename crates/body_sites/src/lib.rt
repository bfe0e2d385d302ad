//! Bodies of expansions: which composite each is of, and what names and types mean there.
#![tactic(auto)]

mod bodies;
mod names;
mod sites;

pub use bodies::Body;
pub use sites::Sites;
