//! Types whose names differ from a function's by the capital alone.

use dpl_list::Items;

/// What bars an edge: a face, by its darts in order from the corner at the smaller end of the edge
/// on, that does not have the corner at the larger end, and kept edges that lead from the smaller end
/// to the larger one.
#[derive(Drop)]
pub struct Bar {
    pub edge: u32,
    pub face: Items<u32>,
    pub walk: Items<u32>,
}

/// The excess over all edges, and what bars the least edge that is set aside, if there is one.
#[derive(Drop)]
pub struct Drawn {
    pub excess: u64,
    pub bar: Option<Bar>,
}

/// What a link crosses: the link of an edge, or a fragment.
#[derive(Clone, Copy, Debug, PartialEq, Eq)]
pub enum With {
    Link(u32),
    Fragment(u32),
}

/// An edge whose link crosses something: the link of a larger edge, or a fragment that the edge does
/// not join.
#[derive(Clone, Copy, Debug, PartialEq, Eq)]
pub struct Crossing {
    pub edge: u32,
    pub other: With,
}
