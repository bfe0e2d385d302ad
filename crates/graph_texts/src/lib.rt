//! Codes, statements, graphs and what is kept of checked ones as texts, for the crates of tests.
#![tactic(auto)]

pub mod checked;
pub mod codes;
pub mod graphs;
mod operators;
pub mod statements;
mod windows;
