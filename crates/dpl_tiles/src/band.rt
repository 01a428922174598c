//! Rows with the same cells, and what finds these.

use crate::finder::Finder;
use dpl_cell::Prim;

/// The rows from `low` up to `high`, which is left out, of these primitives. The finder has reached
/// row `low`.
#[derive(Clone, Copy)]
pub struct Band<'a> {
    pub prims: &'a [Prim],
    pub finder: &'a Finder,
    pub low: i64,
    pub high: i64,
}
