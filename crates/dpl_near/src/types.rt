//! Types whose names differ from a function's by the capital alone.
use dpl_list::Items;

/// The shapes that rectangles make.
#[derive(Drop)]
pub struct Shapes {
    /// The pairs of rectangles that share an edge of positive length, the smaller number first, ascending.
    pub joins: Items<(u32, u32)>,
    /// The shape of each rectangle. Shapes are numbered from 0 in the order of their least rectangles.
    pub label: Items<u32>,
    /// How many shapes there are.
    pub count: u32,
}
