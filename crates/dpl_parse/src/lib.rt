//! The text of a report, read.
//!
//! `parse` reads exactly what `print` of `dpl_report` writes, or names the first wrong line. Of what it gives the letters of
//! the masks, the cut, clash, cycle and box lines stay a part of the text, and are read where they stand (`Letters`,
//! `Cuts`, `Clashes`, `Cycles`, `Boxes`).
#![tactic(auto)]

mod blocks;
mod bodies;
mod boxes;
mod drawn;
mod edges;
mod guesses;
mod heads;
mod items;
mod letters;
mod lines;
mod names;
mod numbers;
mod parts;
mod reading;
mod rising;
mod standing;
mod stops;

pub use boxes::Boxes;
pub use dpl_walks::{Cycles, Edges, WrittenCycle};
pub use letters::Letters;
pub use lines::{Clashes, Cuts};
pub use reading::{ReadReport, ReportError, parse};
