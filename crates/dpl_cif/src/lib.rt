//! The primitives of one layer of a CIF 2.0 text.
//!
//! `read` gives exactly the boxes and polygons of the layer after all calls, or the first of the layout's
//! faults with its command, or the first limit that is passed with its count, each exactly where
//! `specs/Reading.antt` says so. `read_commands` gives the same where the text is already cut. Want of
//! memory alone is free. No call recurses on the nesting of definitions, and the limits on primitives and
//! calls are found before any call is carried out. `scope_rules` says what is in force where.
#![tactic(auto)]

mod error;
mod laws;
mod prims;
mod reach;
mod reading;

pub use dpl_rules::What;
pub use error::{CifError, CifLimit};
pub use laws::scope_rules;
pub use reading::{drawing_rules, read, read_commands};
