//! Values, their texts and keys, and the built-in calls on them, against what they are by the rules of
//! the language.
#![tactic(auto)]

#[cfg(test)]
mod calls;
#[cfg(test)]
mod equal_maps;
#[cfg(test)]
mod histories;
#[cfg(test)]
mod integers;
#[cfg(test)]
mod items;
#[cfg(test)]
mod keys;
#[cfg(test)]
mod no_memory;
#[cfg(test)]
mod order;
#[cfg(test)]
mod orders;
#[cfg(test)]
mod pairs;
#[cfg(test)]
mod sequences;
#[cfg(test)]
mod words;
