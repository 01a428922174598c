//! Shapes and close pairs of rectangles.
//!
//! `joins` gives the pairs of rectangles that share an edge, and `shapes` for each rectangle the
//! number of its shape too: the class of its cells under walks over shared edges. `Surroundings`
//! gives the rectangles of other shapes that are closer to one of them than a reach, and those that
//! touch it. `are_apart` tells whether no two rectangles share a cell, which `shapes` asks for.
#![tactic(auto)]

mod apart;
mod borders;
mod bounds;
mod joining;
pub mod laws;
mod lines;
mod pairing;
mod seeking;
mod shaping;
mod surroundings;
pub mod types;

pub use apart::are_apart;
pub use bounds::{all_bounds, bounds_of};
pub use joining::joins;
pub use shaping::shapes;
pub use std::alloc::AllocError as NoMemory;
pub use surroundings::Surroundings;
