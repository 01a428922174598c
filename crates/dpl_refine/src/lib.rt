//! Colours that cost less, where a colouring is not the best.
//!
//! `refine` turns pieces over, which are the classes of the bonds. What it gives costs at most what it was given, in each
//! component it costs less or is the same, and no piece can be turned over alone to cost less.
#![tactic(auto)]

mod choosing;
mod gaining;
mod joining;
mod laws;
mod links;
mod refining;
mod searching;
mod turning;

pub use joining::{components, pieces};
pub use laws::{least_are_refined, turned_are_colourings, turns_cost};
pub use links::push_end;
pub use refining::refine;
pub use std::alloc::AllocError as NoMemory;
