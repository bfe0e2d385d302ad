//! Types, declarations and statements, read from tokens.
#![tactic(auto)]

mod declarations;
mod first;
mod sequence;
mod simple;
mod statements;
mod types;

pub use declarations::declaration;
pub use first::{pass_dollar, pass_word, word_first};
pub use sequence::{closed, expression_before, name_before, push_taken};
pub use statements::block;
pub use types::{function_parameters, read_type, read_type_between, shape};
