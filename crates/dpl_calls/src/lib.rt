//! The definitions of a CIF layout and its calls.
//!
//! `scan` keeps the parts of each definition, or gives the first broken rule of one command. `missing` and
//! `looped` find the calls that no layout may have, `total` counts calls and primitives without carrying the
//! calls out, and `unfold_table` carries them out. Nothing here recurses on the nesting of definitions.
#![tactic(auto)]

mod apart;
mod body;
mod entry;
pub mod figure;
mod graph;
mod laws;
mod loops;
mod moves;
mod placement;
mod putting;
mod scanning;
pub mod table;
mod totals;
mod unfolding;

pub use graph::groups_of;
pub use laws::{
    depth_may_grow, mirrors_undo, opposite_turns_undo, placements_are_joined,
    turns_follow_their_direction,
};
pub use loops::{calling_rules, looped, missing};
pub use scanning::{ScanError, scan};
pub use totals::{Count, total};
pub use unfolding::unfold_table;
