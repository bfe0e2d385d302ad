//! The values of typed expressions, and what typed statements do.
#![tactic(auto)]

mod answered;
mod context;
mod evaluate;
mod flow;
mod moving;
mod run;
mod statements;
mod truth;
mod tuple;
mod variables;

pub use evaluate::eval;
pub use language_model::{Env, Tuples};
pub use moving::tuple_moving;
pub use run::{Ran, run_body};
pub use truth::holds;
pub use tuple::tuple_into;
pub use value_operations::{Made, Truth};
