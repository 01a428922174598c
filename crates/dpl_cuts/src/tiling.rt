// Tiles with their shapes, what is kept whole, and the lengths.
use dpl_cell::Rect;

/// Tiles that share no cell, the numbers of their shapes, and the rectangles to keep whole. `space` and `over`, the
/// spacing and the overlap, are in grid units.
#[derive(Clone, Copy)]
pub struct Tiling<'a> {
    pub tiles: &'a [Rect],
    pub label: &'a [u32],
    pub keep: &'a [Rect],
    pub space: u64,
    pub over: u64,
}
