//! Texts of types, expressions and statements against what they are by the rules of the language, worked out by
//! hand.
#![tactic(auto)]

#[cfg(test)]
mod asked;
#[cfg(test)]
mod statements;
#[cfg(test)]
mod tests;
#[cfg(test)]
mod types;
