//! What elements make of what they take, and the packets that wait for their outputs, against answers worked out by hand
//! from the rules.
#![tactic(auto)]

#[cfg(test)]
mod mergers;
#[cfg(test)]
mod outboxes;
#[cfg(test)]
mod shown;
#[cfg(test)]
mod splitters;
#[cfg(test)]
mod spoken;
