//! Windows: what they hold and when they fire, by the rules of the language.
#![tactic(auto)]

#[cfg(test)]
mod beside;
#[cfg(test)]
mod events;
#[cfg(test)]
mod many;
#[cfg(test)]
mod rows;
#[cfg(test)]
mod rules;
#[cfg(test)]
mod sums;
