//! Tests of the crates that read a layout, from its text to the net of its fragments, a file for each crate.
//!
//! A crate with tests is proved once for itself and once with them, so these stand above what they test.
#![tactic(auto)]

#[cfg(test)]
mod boxes;
#[cfg(test)]
mod calls;
#[cfg(test)]
mod cell;
#[cfg(test)]
mod cif;
#[cfg(test)]
mod classes;
#[cfg(test)]
mod cover;
#[cfg(test)]
mod cuts;
#[cfg(test)]
mod figures;
#[cfg(test)]
mod groups;
#[cfg(test)]
mod index;
#[cfg(test)]
mod layer;
#[cfg(test)]
mod lex;
#[cfg(test)]
mod links;
#[cfg(test)]
mod near;
#[cfg(test)]
mod rules;
#[cfg(test)]
mod tiles;
