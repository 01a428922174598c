// How two rectangles lie to each other, by the eight ports of the first.
ghost use Rattle.std.specs.Prelude.{◌≤ℤ◌};
ghost use Rattle.std.specs.Int.{int_max, int_min};
ghost use Rattle.dpl_cell.specs.Places.{corners_of};
ghost use Rattle.dpl_cell.specs.Cells.{AreApart};
ghost use Rattle.dpl_cell.specs.Facing.{IsFacing};

use crate::gaps::apart;
use crate::rect::Rect;
use crate::seams::common_part;
use crate::types::Facing;

/// How the second rectangle lies to the first, with which it shares no cell.
pub fn facing(a: &Rect, b: &Rect) -> Facing
    requires { AreApart (corners_of a.now) (corners_of b.now) }
    ensures { IsFacing (corners_of a.now) (corners_of b.now) result }
{
    let c = common_part(a, b);
    if c.left < c.right {
        let port = if b.y1 < a.y1 { 1 } else { 5 };
        return Facing::Side {
            port,
            from: c.left,
            to: c.right,
        };
    }
    if c.low < c.high {
        let port = if b.x1 < a.x1 { 7 } else { 3 };
        return Facing::Side {
            port,
            from: c.low,
            to: c.high,
        };
    }
    off_corner(a, b)
}

fn off_corner(a: &Rect, b: &Rect) -> Facing
    requires columns { int_min a.now.x2 b.now.x2 ≤ℤ int_max a.now.x1 b.now.x1 }
    requires rows { int_min a.now.y2 b.now.y2 ≤ℤ int_max a.now.y1 b.now.y1 }
    ensures { IsFacing (corners_of a.now) (corners_of b.now) result }
{
    let dx = apart(a.x1, a.x2, b.x1, b.x2);
    let dy = apart(a.y1, a.y2, b.y1, b.y2);
    let port = match (b.x1 < a.x1, b.y1 < a.y1) {
        (true, true) => 0,
        (false, true) => 2,
        (false, false) => 4,
        (true, false) => 6,
    };
    Facing::Corner { port, dx, dy }
}
