//! Permutations of the numbers below `n` and the cycles into which they fall. The laws here are
//! contracts of functions that do nothing: each says a fact about the definitions.
#![tactic(auto)]

mod laws;

pub use laws::{even_sums_have_labels, exchange_splits_or_merges, members_and_others};
