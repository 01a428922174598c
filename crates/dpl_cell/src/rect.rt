// A rectangle of cells.
ghost use Rattle.std.specs.Prelude.{ℤ, pos, neg_ℤ, ◌<ℤ◌, ◌≤ℤ◌};
ghost use Rattle.dpl_limits.specs.Limits.{most_coordinate};

use crate::range::is_stretch;

/// A rectangle of cells in grid units: columns from `x1` to `x2` and rows from `y1` to `y2`, the greater left out.
#[derive(Clone, Copy, Debug)]
pub struct Rect {
    pub x1: i64,
    pub y1: i64,
    pub x2: i64,
    pub y2: i64,
    pub ghost wide: { x1 <ℤ x2 },
    pub ghost high: { y1 <ℤ y2 },
    pub ghost left: { neg_ℤ (pos most_coordinate) ≤ℤ x1 },
    pub ghost right: { x2 ≤ℤ pos most_coordinate },
    pub ghost below: { neg_ℤ (pos most_coordinate) ≤ℤ y1 },
    pub ghost above: { y2 ≤ℤ pos most_coordinate },
}

impl Rect {
    ghost use Rattle.std.specs.Prelude.{◌≡◌, ◌↔◌, IsSome, IfSome};
    ghost use Rattle.dpl_cell.specs.Places.{corners_of};
    ghost use Rattle.dpl_cell.specs.Ranges.{IsRectangle};

    /// The rectangle with these corners, `None` where they hold no cell or are out of range.
    pub fn new(x1: i64, y1: i64, x2: i64, y2: i64) -> Option<Rect>
        ensures some { IsSome result ↔ IsRectangle (record { x1 = x1; y1 = y1; x2 = x2; y2 = y2 }) }
        ensures corners { IfSome result (λ r. corners_of r
            ≡ record { x1 = x1; y1 = y1; x2 = x2; y2 = y2 }) }
    {
        if is_stretch(x1, x2) && is_stretch(y1, y2) {
            Some(Rect { x1, y1, x2, y2 })
        } else {
            None
        }
    }
}
