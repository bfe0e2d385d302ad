//! The splitter, the mergers and the links of a network, by themselves.
#![tactic(auto)]

#[cfg(test)]
mod links;
#[cfg(test)]
mod many;
#[cfg(test)]
mod mergers;
mod premises;
#[cfg(test)]
mod scripts;
#[cfg(test)]
mod splitters;

pub use premises::packets_in_order;
