//! Texts of programs against their graphs, what the rules of clauses find out about them, what analyses say of
//! them, and runs of their operators, or against their first refusals: all worked out by hand from the language.
#![tactic(auto)]

#[cfg(test)]
mod analyses;
#[cfg(test)]
mod asked;
#[cfg(test)]
mod clauses;
mod copying;
#[cfg(test)]
mod graphs;
#[cfg(test)]
mod reading;
#[cfg(test)]
mod records;
mod writer;

pub use copying::copied;
pub use writer::Writer;
