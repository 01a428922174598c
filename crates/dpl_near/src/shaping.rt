// The shapes of rectangles: their classes under shared edges.
ghost use Rattle.std.specs.Prelude.{ℕ, ◌≤◌, length, AllPairs, IfOk, map};
ghost use Rattle.dpl_limits.specs.declared.TheConstants.{MOST_TILES};
ghost use Rattle.dpl_cell.specs.Places.{corners_of};
ghost use Rattle.dpl_cell.specs.Cells.{AreApart};
ghost use Rattle.dpl_near.specs.Joins.{AreJoins};
ghost use Rattle.dpl_near.specs.Shapes.{AreShapes};

use crate::joining::joins;
use crate::types::Shapes;
use dpl_cell::Rect;
use dpl_classes::classes;
use dpl_list::Items;
use std::alloc::{AllocError as NoMemory, Global};

/// The shapes that rectangles make, of which no two share a cell.
pub fn shapes(alloc: Global, rects: &[Rect]) -> Result<Shapes, NoMemory>
    requires apart { AllPairs AreApart (map corners_of rects.now) }
    requires few { length rects.now ≤ MOST_TILES }
    ensures joins { IfOk result (λ s. AreJoins (map corners_of rects.now) s.joins) }
    ensures shapes { IfOk result (λ s. AreShapes (map corners_of rects.now) s.label s.count) }
{
    let joins = joins(alloc, rects)?;
    let (label, count) = classes(alloc, rects.len(), joins.as_slice())?;
    Ok(Shapes {
        joins: Items::new(joins),
        label: Items::new(label),
        count,
    })
}
