//! Tuples as lines of text, read and written.
#![tactic(auto)]

#[cfg(test)]
mod lines;
#[cfg(test)]
mod schemas;
