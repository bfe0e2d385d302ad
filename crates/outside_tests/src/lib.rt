//! What the program reads from and writes to: files, devices and the lines that it tells.
#![tactic(auto)]

#[cfg(test)]
mod adapters;
#[cfg(test)]
mod devices;
#[cfg(test)]
mod files;
#[cfg(test)]
mod reports;
#[cfg(test)]
mod shelves;
#[cfg(test)]
mod shown;
