//! Which columns boxes cover in a row, as a sweep goes up from row to row.
//!
//! The columns at which boxes end part a row into places. A cover counts for each place how many boxes have it in the
//! row that was reached, in blocks of 32 places and in wide blocks of 32 blocks: a block that a box has whole is
//! counted once, a wide block from the second such box on. So a box costs the wide blocks that it has, the blocks of
//! two of them and the places of two blocks, and so does a question, for a part of a row in which little changes from
//! wide block to wide block.
#![tactic(auto)]

mod blocks;
mod columns;
mod counts;
mod cover;
mod merging;
mod parts;

pub use cover::Cover;
pub use merging::{merged, sort};
