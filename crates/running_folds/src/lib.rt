//! What is kept of the values of arguments for the folds over them, while values come and go.
#![tactic(auto)]

mod moving;
mod queue;
mod rows;
mod tallies;
mod tally;
mod total;

use language_model::Collector;
pub use moving::Moving;
pub use rows::{leave_all, made_all, moving_of, pass_all};
use spl_value::Items;
pub use tallies::{add_all, take_all, tallies_of};
pub use tally::Tally;
pub use total::Total;

/// What is made of the values of an argument. `Any` is `First`.
pub type Fold = Collector;

/// Folds, each over an argument of its own.
pub type Folds = Items<Fold>;
