//! Programs, read from tokens.
#![tactic(auto)]

mod clauses;
mod composites;
mod declarations;
mod invocations;
mod laws;
mod parse;
mod units;

pub use laws::units_law;
pub use parse::parse_unit;
