//! Odd walks that bound more, where a packing is not the best: `more_cycles` gives a packing of odd walks whose bound is
//! greater, or the same packing. Each walk that a search finds is tested before it is taken, and what it loads is counted.
#![tactic(auto)]

mod laying;
mod packing;
mod parting;
mod seeking;
mod streets;
#[cfg(test)]
mod tests;
mod tours;
mod trees;
mod walking;
mod ways;

pub use packing::{bound, more_cycles};
pub use std::alloc::AllocError as NoMemory;
