//! Why the drawing of a net is not plane.
//!
//! `crossing` names two links that cross, or a link that crosses a third fragment, exactly where there
//! are such. That a drawing without crossings is plane is not claimed.
//!
//! `excess_of` gives the excess over all edges. `bar` shows for the least edge that is set aside what
//! bars it: one face of the kept edges holds the corner at which the edge leaves its smaller end and
//! not that at its larger end, and kept edges lead from one end to the other. So the edge would join
//! two faces of one component. `drawn` gives both from one drawing.
#![tactic(auto)]

mod bars;
mod circling;
mod crossings;
mod laws;
mod links;
mod rows;
mod searching;
mod segment;
mod segments;
pub mod types;

pub use bars::{bar, drawn, excess_of};
pub use crossings::crossing;
pub use laws::{bars_merge_faces, first_aside_is_listed_first};
pub use std::alloc::AllocError as NoMemory;
