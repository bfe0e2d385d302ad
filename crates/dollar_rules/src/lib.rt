//! The values of `$` parameters of composites.
#![tactic(auto)]

mod constants;
mod heads;
mod mentions;
mod settling;
mod tables;
mod weights;

pub use tables::dollar_tables;
