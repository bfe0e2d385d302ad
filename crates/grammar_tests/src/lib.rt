//! Texts of programs against their tokens, their trees or their first refusals, worked out by hand from
//! the grammar.
#![tactic(auto)]

#[cfg(test)]
mod expressions;
#[cfg(test)]
mod programs;
#[cfg(test)]
mod tokens;
