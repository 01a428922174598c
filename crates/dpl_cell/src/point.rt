// A corner of a polygon.
ghost use Rattle.std.specs.Prelude.{ℤ, pos, neg_ℤ, ◌≤ℤ◌};
ghost use Rattle.dpl_limits.specs.Limits.{most_coordinate};

use crate::range::is_in_range;

/// A corner of a polygon, in grid units.
#[derive(Clone, Copy, Debug)]
pub struct Point {
    pub x: i64,
    pub y: i64,
    pub ghost left: { neg_ℤ (pos most_coordinate) ≤ℤ x },
    pub ghost right: { x ≤ℤ pos most_coordinate },
    pub ghost below: { neg_ℤ (pos most_coordinate) ≤ℤ y },
    pub ghost above: { y ≤ℤ pos most_coordinate },
}

impl Point {
    ghost use Rattle.std.specs.Prelude.{◌≡◌, ◌↔◌, IsSome, IfSome};
    ghost use Rattle.dpl_cell.specs.Places.{place_of};
    ghost use Rattle.dpl_cell.specs.Ranges.{IsInRange};

    /// The point with these coordinates, `None` where they are out of range.
    pub fn new(x: i64, y: i64) -> Option<Point>
        ensures some { IsSome result ↔ (IsInRange x × IsInRange y) }
        ensures place { IfSome result (λ p. place_of p ≡ (x, y)) }
    {
        if is_in_range(x) && is_in_range(y) {
            Some(Point { x, y })
        } else {
            None
        }
    }
}
