//! Bytes of a program, cut into tokens.
#![tactic(auto)]

mod answer;
mod bytes;
mod front;
mod lengths;
mod numbers;
mod symbols;
mod texts;
mod tokens;
mod words;

pub use answer::LexAnswer;
pub use tokens::lex;
