//! Groups of nodes, driven on threads and by the caller.
#![tactic(auto)]

#[cfg(test)]
mod countdowns;
