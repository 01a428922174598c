//! Tests of the crates that join faces, nest sets of them and pack cycles, a file for each crate.
//!
//! A crate with tests is proved once for itself and once with them, so these stand above what they test.
#![tactic(auto)]

#[cfg(test)]
mod dual;
#[cfg(test)]
mod dual_grids;
#[cfg(test)]
mod laminar;
#[cfg(test)]
mod solve;
