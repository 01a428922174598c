//! One command of a CIF text: its form, and the rules that it can break.
//!
//! `read_command` gives exactly the command that `specs/Forms.antt` and `specs/Bounds.antt` read, or the
//! rule that its bytes break. `broken_rule` gives exactly the first of the other rules of
//! `specs/Rules.antt`. `figures` has the corners of boxes and wires.
#![tactic(auto)]

mod bounds;
pub mod command;
pub mod figures;
mod forms;
mod readers;
mod rules;
pub mod scope;
mod what;

pub use bounds::read_command;
pub use rules::broken_rule;
pub use what::{Refusal, What};
