// The cells of polygons in one row, as stretches.
ghost use Rattle.std.specs.Prelude.{◌<◌, length, OnOk, All};
ghost use Rattle.dpl_tiles.specs.Stretches.{IsFramed};
ghost use Rattle.dpl_tiles.specs.Sides.{AddsBetween, is_between};

use crate::columns::Columns;
use crate::crossing::push_polygon;
use crate::sides::Sides;
use dpl_cell::Stretch;
use std::alloc::{AllocError, Global};

/// Adds the cells that polygons with these numbers have in a window of a row, and perhaps more of those that they have in
/// the row. They are given by their sides.
pub fn push_polygons(
    alloc: Global,
    parts: &mut Vec<Stretch>,
    sides: &[Sides],
    found: &[usize],
    window: &Columns,
    y: i64,
) -> Result<(), AllocError>
    requires found { All (λ i. i < length sides.now) found.now }
    requires framed { All (λ s. IsFramed (is_between s) y window.now.left window.now.right)
        sides.now }
    ensures { OnOk result (AddsBetween sides.now found.now y window.now.left window.now.right
        parts.old.items parts.new.items) }
{
    for i in found {
        push_polygon(alloc, parts, &sides[*i], window, y)?;
    }
    Ok(())
}
