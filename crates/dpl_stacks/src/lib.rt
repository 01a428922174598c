//! The stacks of a sweep, and the place among them where it goes on.
//!
//! Stacks are rectangles that lie left of one another, with a column between. `part` takes out those near some columns;
//! the place lies then where they stood. A sweep changes little from one place to the next, so the stacks near the place
//! stand in two lists, and those far from it in blocks, which pass from one side to the other whole.
#![tactic(auto)]

mod moving;
mod parting;
mod passing;
mod stacks;

pub use parting::{part, take_near};
pub use stacks::{Stacks, all_stacks, no_stacks};
