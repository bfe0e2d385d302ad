//! The code of bodies, of functions and of handlers.
#![tactic(auto)]

mod bodies;
mod functions;
mod handlers;
mod refusals;

pub use bodies::{BodyPurpose, BodySetting, body_of, ends_with_result};
pub use functions::{functions_of, scope_of_unit};
pub use handlers::{empty_port, handlers_of};
