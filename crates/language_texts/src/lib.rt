//! Texts of the language, read, and what they are typed and evaluated in.
#![tactic(auto)]

mod context;
mod reading;
mod scopes;
mod unanswered;

pub use context::{Context, TURNS, Valued};
pub use reading::{body_named, expr_from, expr_of, tokens_of, unit_of};
pub use scopes::{Place, scope_at, scope_of, type_named};
pub use unanswered::{Adds, Unanswered, answer_of};
