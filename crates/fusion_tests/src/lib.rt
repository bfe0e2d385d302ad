//! Texts of programs against the elements into which they are fused and the links between these, worked out by hand
//! from the rules.
#![tactic(auto)]

#[cfg(test)]
mod asked;
#[cfg(test)]
mod reading;
#[cfg(test)]
mod rows;
#[cfg(test)]
mod shape_texts;
