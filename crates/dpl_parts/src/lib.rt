//! A net as the sum of its components.
//!
//! `components` numbers the components of a net. Which edges of a component are kept, and what its faces are, is told by
//! the component alone (`component_rules`). So a component that stays in another net keeps its optimum: laid over an
//! optimum of the other net it is one again (`optima_stay`).
//!
//! What is counted or weighed of a net is the sum over the parts that share it out, and what colours and packs them colours
//! and packs the net (`sum_rules`). `split` makes the net of each component.
#![tactic(auto)]

mod gathering;
mod joining;
mod laws;
mod splitting;
mod summing;

pub use gathering::{Gathered, gather};
pub use joining::{components, counted_components};
pub use laws::{component_rules, optima_stay};
pub use splitting::split;
pub use std::alloc::AllocError as NoMemory;
pub use summing::sum_rules;
