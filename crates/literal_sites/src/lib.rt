//! Where the expressions of an operator stand, and the literals that are values of their `$` parameters.
#![tactic(auto)]

mod follow;
mod refusals;
mod site;

pub use follow::Follow;
pub use refusals::extra;
pub use site::ExpressionSite;
