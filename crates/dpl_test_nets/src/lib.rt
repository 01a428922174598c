//! Nets from plain numbers, for the tests of the crates that draw, measure and colour them.
#![tactic(auto)]

pub mod nets;
