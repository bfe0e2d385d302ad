//! What is looked up in a program: names by their first places, the composites and invocations at sites,
//! the values and defaults of parameters, and what expressions, statements and clauses mention.
#![tactic(auto)]

mod mentions;
mod names;
mod parameters;
mod sites;

pub use mentions::{Mention, Mentions, of_body, of_expression, of_invocation};
pub use names::{HasName, Names, names_of, names_of_streams};
pub use parameters::{default_named, value_named};
pub use sites::SiteTable;
