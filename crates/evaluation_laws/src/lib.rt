//! What operators need to know of evaluation: that what fits isn't stuck, how many turns it takes, what literals
//! evaluate to, what bodies do with the slots that they name and with variables that aren't mutable, and what
//! becomes of what fits.
#![tactic(auto)]

mod bodies;
mod evaluation;
mod examples;
mod handlers;
mod literals;
mod outcomes;
mod turns;

pub use bodies::slots_law;
pub use evaluation::{evaluation_law, statements_law, value_law};
pub use examples::{
    constant_on_literals, handler_on_literals, slots_on_literals, turns_on_literals,
};
pub use handlers::handlers_law;
pub use literals::literals_law;
pub use outcomes::outcomes_law;
pub use turns::{runs_turns_law, value_turns_law};
