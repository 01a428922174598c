//! Tests of the crates that write and check a report, a file for each crate.
//!
//! A crate with tests is proved once for itself and once with them, so these stand above what they test.
#![tactic(auto)]

#[cfg(test)]
mod asked;
#[cfg(test)]
mod balance;
#[cfg(test)]
mod check;
#[cfg(test)]
mod edits;
#[cfg(test)]
mod made_layouts;
#[cfg(test)]
mod report;
#[cfg(test)]
mod splits;
