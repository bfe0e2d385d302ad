//! Tables of rows, and values, types and refusals as texts, for the crates of tests.
//!
//! A crate of tests has its cases in literals, a row a line, and asks here which of them have another
//! answer than their line says.
#![tactic(auto)]

pub mod refusals;
pub mod rows;
pub mod shells;
pub mod signs;
pub mod spelled;
pub mod text;
pub mod types;
pub mod values;
pub mod words;
