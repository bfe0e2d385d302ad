//! What the types that a program writes mean.
#![tactic(auto)]

mod definitions;
mod finding;
mod leading;
mod places;
mod refusals;
mod table;

pub use definitions::narrow;
pub use finding::{TypeScope, attributes_of, shape_of, type_boxed, type_of_written};
pub use leading::leads_back;
pub use table::TypeTable;
