// The figures of a layout, in grid units of half a hundredth of a micron.
use dpl_list::Items;
use dpl_rules::figures::Extent;

/// A corner of a polygon.
#[derive(Clone, Copy, Debug, PartialEq, Eq)]
pub struct Corner {
    pub x: i128,
    pub y: i128,
}

#[derive(Drop)]
pub enum Figure {
    Rectangle(Extent),
    Polygon(Items<Corner>),
}
