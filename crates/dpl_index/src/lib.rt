//! Items by their bounds.
//!
//! An `Index` answers which of its items have bounds that meet others: exactly those, by number, ascending. It looks at
//! few of them, since the bounds of items that lie near one another are taken together. A `KindIndex` has a kind for each
//! item too, and is asked for those of other kinds, and for those of one's own kind within narrower bounds.
//! `stops_by_kind` gives the stops themselves, for walks that know more of what they need not look at.
#![tactic(auto)]

mod bounds;
mod curve;
mod grouping;
mod groups;
mod index;
mod kinded;
mod kinds;
mod order;
mod stops;

pub use bounds::Bounds;
pub use grouping::stops_by_kind;
pub use index::Index;
pub use kinded::{Ask, KindIndex};
pub use std::alloc::AllocError as NoMemory;
pub use stops::Stop;
