// The gap of two rectangles, in grid units of half a hundredth of a micron.
ghost use Rattle.std.specs.Prelude.{◌≡◌, ◌↔◌, ℕ, ℤ, pos, neg_ℤ, ◌<ℤ◌, ◌≤ℤ◌, ◌≤◌, ◌<◌, ◌^◌, IsTrue};
ghost use Rattle.dpl_limits.specs.Limits.{most_coordinate};
ghost use Rattle.dpl_cell.specs.Places.{corners_of};
ghost use Rattle.dpl_cell.specs.Cells.{IsWithin, IsIn};
ghost use Rattle.dpl_cell.specs.Gaps.{between, IsBetween, IsGap2, AreClose};

use crate::rect::Rect;

/// How many columns or rows lie between two stretches of them, 0 where they meet or overlap.
pub fn apart(a1: i64, a2: i64, b1: i64, b2: i64) -> u64
    requires a { a1 <ℤ a2 }
    requires b { b1 <ℤ b2 }
    requires low_a { neg_ℤ (pos most_coordinate) ≤ℤ a1 }
    requires high_a { a2 ≤ℤ pos most_coordinate }
    requires low_b { neg_ℤ (pos most_coordinate) ≤ℤ b1 }
    requires high_b { b2 ≤ℤ pos most_coordinate }
    ensures small { result ≤ 2 ^ 31 }
    ensures least { (x y : ℤ) → IsWithin a1 a2 x → IsWithin b1 b2 y → result ≤ between x y }
    ensures attained { IsBetween a1 a2 b1 b2 result }
{
    if a2 <= b1 {
        (b1 - a2) as u64
    } else if b2 <= a1 {
        (a1 - b2) as u64
    } else {
        0
    }
}

/// The squared gap of two rectangles, in squares of grid units: 0 where they overlap or touch, at a corner too.
pub fn gap2(a: &Rect, b: &Rect) -> u64
    ensures { IsGap2 (IsIn (corners_of a.now)) (IsIn (corners_of b.now)) result }
{
    let dx = apart(a.x1, a.x2, b.x1, b.x2);
    let dy = apart(a.y1, a.y2, b.y1, b.y2);
    dx * dx + dy * dy
}

/// Whether the gap of two rectangles is less than `reach` grid units.
pub fn are_close(a: &Rect, b: &Rect, reach: u64) -> bool
    requires { reach < 2 ^ 32 }
    ensures { IsTrue result ↔ AreClose (IsIn (corners_of a.now)) (IsIn (corners_of b.now)) reach }
{
    gap2(a, b) < reach * reach
}
