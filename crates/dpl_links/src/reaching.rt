// How far a rectangle is at least from others of which only bounds are known.
ghost use Rattle.std.specs.Prelude.{◌≤◌, ◌^◌, ℤ, pos, ◌-ℤ◌, ◌≤ℤ◌, map, length, ◌<◌};
ghost use Rattle.std.specs.Int.{int_max};
ghost use Rattle.std.specs.Int.RustNames.{unsigned_abs};
ghost use Rattle.dpl_cell.specs.Places.{corners_of};
ghost use Rattle.dpl_cuts.specs.Positions.{rect_at};
ghost use Rattle.dpl_links.specs.Pairs.{stretch_gap};
ghost use Rattle.dpl_links.specs.Crowds.{IsLeastGap};

use dpl_cell::Rect;
use dpl_index::Bounds;
use dpl_limits::MOST_COORDINATE;

/// A squared gap, in squares of grid units, that is no greater than that of the rectangle `i` to each other one which the
/// bounds hold.
pub fn least_gap_at(rects: &[Rect], i: usize, bounds: &Bounds) -> u64
    requires { i < length rects.now }
    ensures { IsLeastGap (rect_at (map corners_of rects.now) i) bounds.now result }
{
    least_gap(&rects[i], bounds)
}

fn least_gap(rect: &Rect, bounds: &Bounds) -> u64
    ensures { IsLeastGap (corners_of rect.now) bounds.now result }
{
    let dx = least_apart(rect.x1, rect.x2, bounds.left, bounds.right);
    let dy = least_apart(rect.y1, rect.y2, bounds.low, bounds.high);
    dx * dx + dy * dy
}

/// How many places lie at least between a stretch and each that lies in another.
fn least_apart(a1: i64, a2: i64, b1: i64, b2: i64) -> u64
    ensures small { result ≤ 2 ^ 31 }
    ensures least { (c1 c2 : ℤ) → b1 ≤ℤ c1 → c2 ≤ℤ b2 → result ≤ stretch_gap a1 a2 c1 c2 }
{
    let before = from_to(a2, b1);
    let behind = from_to(b2, a1);
    if before < behind { behind } else { before }
}

/// How far it is from one place to a later one, as far as both are within the limits; 0 where it is not later.
fn from_to(start: i64, end: i64) -> u64
    ensures small { result ≤ 2 ^ 31 }
    ensures least { result ≤ unsigned_abs (int_max (pos 0) (end -ℤ start)) }
{
    let start = start.max(-MOST_COORDINATE);
    let end = end.min(MOST_COORDINATE);
    if start < end { (end - start) as u64 } else { 0 }
}
