// A layer and its primitives, boxes and polygons.
use crate::points::Points;
use crate::rect::Rect;
use dpl_list::Items;

/// A part of a layer.
#[derive(Drop)]
pub enum Primitive {
    Box(Rect),
    Poly(Points),
}

/// One layer of a layout: the cells that lie in at least one of its primitives.
#[derive(Drop)]
pub struct Layout {
    pub prims: Items<Primitive>,
}
