//! The parameters of operators.
#![tactic(auto)]

mod files;
mod parameters;

pub use parameters::{
    parameters_of, position_given, strict_given, take_code, take_file, take_places,
};
