//! Families of nested odd sets with values: the blossoms under a perfect matching of least weight.
//!
//! A family over the members below `n` has the single members as its sets from the start. `shrink`
//! makes a new top of an odd number of tops, which become its children around a ring, `expand`
//! takes a top away again, and `raise` changes a value. The load of two members is the sum of the
//! values of the sets that hold exactly one of them.
//!
//! Where no load is more than the distance of its two members, no perfect pairing has a sum of
//! distances below the sum of the values: `values_bound_pairings`.
#![tactic(auto)]

mod family;
mod law;
mod members;
mod releasing;
mod rings;
mod starting;
mod steps;
mod values;

pub use family::Family;
pub use law::values_bound_pairings;
pub use std::alloc::AllocError as NoMemory;
pub use steps::Steps;

/// The most members of a family.
pub const MOST_MEMBERS: u32 = 1_048_576;
