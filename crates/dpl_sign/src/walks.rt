// Walks and their half weights.
use dpl_list::Items;

/// A node, and the numbers of the edges of a walk from it.
#[derive(Drop)]
pub struct Walk {
    pub start: u32,
    pub edges: Items<u32>,
}

/// A walk with a half weight.
#[derive(Drop)]
pub struct Cycle {
    pub half: u64,
    pub walk: Walk,
}
