//! Tests of the devices, the words of a command line and whole runs, a file for each.
//!
//! A crate with tests is proved once for itself and once with them, so these stand above what they test.
#![tactic(auto)]

#[cfg(test)]
mod answers;
#[cfg(test)]
mod devices;
#[cfg(test)]
mod edit_words;
#[cfg(test)]
mod edits;
#[cfg(test)]
mod memory;
#[cfg(test)]
mod runs;
#[cfg(test)]
mod shelves;
#[cfg(test)]
mod words;
