//! A report, and its text.
//!
//! `print` writes a valid report. No two reports have one text, and a text read as CIF draws exactly its boxes
//! (`report_rules`). What reads a text back is defined here too (`specs/Reading`), and done by `dpl_parse`.
#![tactic(auto)]

mod laws;
mod marks;
mod params;
mod printing;
mod reports;
mod values;
pub mod writing;

pub use laws::report_rules;
pub use marks::{Broken, Zone};
pub use params::{Counts, Params};
pub use printing::print;
pub use reports::Report;
pub use std::alloc::AllocError as NoMemory;
pub use values::{More, Values};
