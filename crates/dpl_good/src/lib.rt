//! What a good report is.
//!
//! `masks`, `broken_cuts` and `broken_clashes` give what a report of a colouring lists. A text is good exactly where
//! nine facts hold of its report (`specs/Facts`, `nine_facts_make_good`). The masks of a good report are together the
//! layer, overlap in the zones of its cut lines alone, and what is too close on one mask is told by a clash line
//! (`specs/MaskCells`, `masks_are_of_the_layer`); reports of the same letters have the same masks
//! (`letters_determine_masks`).
#![tactic(auto)]

mod clashes;
mod counting;
mod goodness;
mod laws;
mod masking;
mod refusals;
mod stitches;
pub mod types;

pub use clashes::broken_clashes;
pub use counting::counts_of;
pub use goodness::{
    good_reports_are_true, letters_determine_masks, lines_show_what_is_broken,
    lists_leave_nothing_out, masks_are_of_the_layer, masks_are_whole, nine_facts_make_good,
    true_reports_are_good, true_reports_are_valid,
};
pub use laws::{
    condition_rules, letters_break_edges, lists_are_one, one_fragment_holds_a_cell, one_refusal,
};
pub use masking::{colour_at, masks};
pub use refusals::{Miss, Refusal};
pub use std::alloc::AllocError as NoMemory;
pub use stitches::broken_cuts;
