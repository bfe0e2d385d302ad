//! Texts of expressions and bodies against what they give by the rules of the language, worked out by hand.
#![tactic(auto)]

#[cfg(test)]
mod asked;
#[cfg(test)]
mod bodies;
#[cfg(test)]
mod chains;
#[cfg(test)]
mod tests;
#[cfg(test)]
mod values;
