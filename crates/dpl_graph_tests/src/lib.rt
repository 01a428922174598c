//! Tests of the crates that list, draw, measure and colour a net, a file for each crate.
//!
//! A crate with tests is proved once for itself and once with them, so these stand above what they test.
#![tactic(auto)]

#[cfg(test)]
mod colour;
#[cfg(test)]
mod drawing;
#[cfg(test)]
mod euler;
#[cfg(test)]
mod list;
#[cfg(test)]
mod map;
#[cfg(test)]
mod parts;
#[cfg(test)]
mod plain;
#[cfg(test)]
mod sign;
