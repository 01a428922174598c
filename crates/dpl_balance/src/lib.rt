//! Masks that cover about the same area.
//!
//! `areas` counts the cells of the two masks. `balance` turns whole components of a report over, so that its masks differ in area by no more than they differ within one component.
//! What is broken stays as it was, so a good report stays good.
#![tactic(auto)]

mod adding;
mod balancing;
mod measuring;
mod turning;
pub mod types;

pub use balancing::balance;
pub use dpl_parts::components;
pub use measuring::areas;
pub use std::alloc::AllocError as NoMemory;
