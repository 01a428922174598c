// Whether two rectangles touch, and the line along which they share edges.
ghost use Rattle.std.specs.Prelude.{◌≡◌, ◌↔◌, ℤ, ◌-ℤ◌, MatchOption, IsTrue};
ghost use Rattle.std.specs.Int.{int_max, int_min};
ghost use Rattle.dpl_cell.specs.Places.{corners_of};
ghost use Rattle.dpl_cell.specs.Cells.{IsIn, AreApart};
ghost use Rattle.dpl_cell.specs.Edges.{SharesEdge, Touch};
ghost use Rattle.dpl_cell.specs.Seams.{IsSeam};

use crate::rect::Rect;
use crate::types::Seam;

/// The columns and the rows that two rectangles have in common; none where an end is not above its start.
#[derive(Clone, Copy, Debug)]
pub struct Common {
    pub left: i64,
    pub right: i64,
    pub low: i64,
    pub high: i64,
}

/// The columns and the rows that both rectangles have, in grid units.
pub fn common_part(a: &Rect, b: &Rect) -> Common
    ensures left { result.left ≡ int_max a.now.x1 b.now.x1 }
    ensures right { result.right ≡ int_min a.now.x2 b.now.x2 }
    ensures low { result.low ≡ int_max a.now.y1 b.now.y1 }
    ensures high { result.high ≡ int_min a.now.y2 b.now.y2 }
{
    Common {
        left: a.x1.max(b.x1),
        right: a.x2.min(b.x2),
        low: a.y1.max(b.y1),
        high: a.y2.min(b.y2),
    }
}

/// Whether two rectangles share a cell or an edge; one corner in common is not enough.
pub fn touch(a: &Rect, b: &Rect) -> bool
    ensures { IsTrue result ↔ Touch (IsIn (corners_of a.now)) (IsIn (corners_of b.now)) }
{
    let c = common_part(a, b);
    let columns = c.left <= c.right;
    let rows = c.low <= c.high;
    let wide = c.left < c.right;
    let high = c.low < c.high;
    columns & rows & (wide | high)
}

/// The line along which two rectangles with no common cell share edges, `None` where they share none.
pub fn seam(a: &Rect, b: &Rect) -> Option<Seam>
    requires { AreApart (corners_of a.now) (corners_of b.now) }
    ensures { MatchOption result (¬ SharesEdge (IsIn (corners_of a.now)) (IsIn (corners_of b.now)))
        (IsSeam (corners_of a.now) (corners_of b.now)) }
{
    let c = common_part(a, b);
    if c.left == c.right {
        if c.low < c.high {
            return Some(Seam {
                upright: true,
                at: c.left,
                from: c.low,
                to: c.high,
            });
        }
    }
    if c.low == c.high {
        if c.left < c.right {
            return Some(Seam {
                upright: false,
                at: c.low,
                from: c.left,
                to: c.right,
            });
        }
    }
    None
}
