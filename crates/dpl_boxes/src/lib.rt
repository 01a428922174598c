//! Masks as lines of a CIF text, and what such a text draws.
//!
//! `push_box` writes a rectangle as the line of a box. `line_rules` says how a text of one command a line is read
//! again by the definitions of `dpl_cif`: comments, and two masks in one definition that is called once. Whatever
//! layer is chosen, such a text breaks no rule, and its two layers have exactly the rectangles of the two masks in
//! their order (`specs/Drawings.antt`). `layouts_are_read` says that a text is read as commands exactly where it is a
//! layout of them by the grammar of CIF 2.0 (`specs/Written.antt`).
#![tactic(auto)]

mod lines;
mod writing;
mod written;

pub use lines::line_rules;
pub use std::alloc::AllocError as NoMemory;
pub use writing::{push_box, push_spaced};
pub use written::layouts_are_read;
