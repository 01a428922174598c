// The bounds of rectangles, and bounds that those of all rectangles near one meet.
ghost use Rattle.std.specs.Prelude.{◌≡◌, ◌≤◌, IfOk, map};
ghost use Rattle.dpl_limits.specs.declared.TheConstants.{MOST_REACH};
ghost use Rattle.dpl_index.specs.Meetings.{Meets};
ghost use Rattle.dpl_cell.specs.Places.{Corners, corners_of};
ghost use Rattle.dpl_cell.specs.Cells.{IsIn};
ghost use Rattle.dpl_cell.specs.Gaps.{AreClose};
ghost use Rattle.dpl_near.specs.Bounds.{bounds_of};

use dpl_cell::Rect;
use dpl_index::Bounds;
use std::alloc::{AllocError as NoMemory, Global};

/// The bounds of all rectangles.
pub fn all_bounds(alloc: Global, rects: &[Rect]) -> Result<Vec<Bounds>, NoMemory>
    ensures { IfOk result (λ v. v.items ≡ map (λ r. bounds_of (corners_of r)) rects.now) }
{
    rects.iter().map(bounds_of).collect(alloc)
}

/// The bounds of a rectangle.
pub fn bounds_of(rect: &Rect) -> Bounds
    ensures { result ≡ bounds_of (corners_of rect.now) }
{
    Bounds {
        left: rect.x1,
        right: rect.x2,
        low: rect.y1,
        high: rect.y2,
    }
}

/// Bounds that those of all rectangles meet whose gap to this one is less than the reach.
pub fn within_reach(rect: &Rect, reach: u64) -> Bounds
    requires { reach ≤ MOST_REACH }
    ensures { (other : Corners) → AreClose (IsIn (corners_of rect.now)) (IsIn other) reach →
        Meets (bounds_of other) result }
{
    let wider = reach as i64 - 1;
    Bounds {
        left: rect.x1 - wider,
        right: rect.x2 + wider,
        low: rect.y1 - wider,
        high: rect.y2 + wider,
    }
}
