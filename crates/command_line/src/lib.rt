//! What the words of the command line ask for.
#![tactic(auto)]

mod arguments;
mod commands;
mod laws;
mod options;
mod request;

pub use laws::{request_law, request_on_literals};
pub use request::{Request, RunOptions, file_names, read_request};
