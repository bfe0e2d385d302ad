//! Parts of a network of elements, by themselves.
#![tactic(auto)]

#[cfg(test)]
mod marks;
