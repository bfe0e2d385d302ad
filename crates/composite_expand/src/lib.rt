//! The graph of a program, in which each composite has been replaced by its body, and the first thing that
//! keeps a program from having one.
#![tactic(auto)]

mod answer;
mod graph;
mod invoking;
mod walk;

pub use answer::ExpandAnswer;
pub use graph::expand;
