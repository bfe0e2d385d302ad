//! Command lines against what they ask.
#![tactic(auto)]

#[cfg(test)]
mod requests;
