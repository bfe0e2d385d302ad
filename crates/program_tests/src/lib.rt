//! The program over files in memory: what it answers to command lines, to programs and to devices that fail.
#![tactic(auto)]

#[cfg(test)]
mod aggregates;
#[cfg(test)]
mod ask;
#[cfg(test)]
mod clauses;
#[cfg(test)]
mod counted;
#[cfg(test)]
mod customs;
#[cfg(test)]
mod devices;
#[cfg(test)]
mod examples;
#[cfg(test)]
mod faults;
#[cfg(test)]
mod hostile;
#[cfg(test)]
mod operators;
#[cfg(test)]
mod plans;
#[cfg(test)]
mod recorded;
#[cfg(test)]
mod refusals;
#[cfg(test)]
mod replays;
#[cfg(test)]
mod rows;
#[cfg(test)]
mod runs;
#[cfg(test)]
mod several;
#[cfg(test)]
mod shown;
#[cfg(test)]
mod single;
#[cfg(test)]
mod sources;
#[cfg(test)]
mod stopped;
#[cfg(test)]
mod words;
