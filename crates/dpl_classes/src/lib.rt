//! Classes of numbers under pairs.
//!
//! `classes` gives each number the label of its class. Two numbers have one label exactly where a chain of pairs joins
//! them, and classes are numbered from 0 in the order of their least members.
#![tactic(auto)]

mod classing;
pub mod laws;
mod numbering;
mod rooting;

pub use classing::classes;
pub use std::alloc::AllocError as NoMemory;
