// The range of coordinates.
ghost use Rattle.std.specs.Prelude.{◌↔◌, ℤ, IsTrue};
ghost use Rattle.dpl_cell.specs.Ranges.{IsInRange, IsStretch};

use dpl_limits::MOST_COORDINATE;

/// Whether a number is a coordinate: its magnitude is within the limit.
pub fn is_in_range(z: i64) -> bool
    ensures { IsTrue result ↔ IsInRange z }
{
    let low = -MOST_COORDINATE <= z;
    let high = z <= MOST_COORDINATE;
    low & high
}

/// Whether these are coordinates with at least one place from the first to the second, which is
/// left out.
pub fn is_stretch(from: i64, to: i64) -> bool
    ensures { IsTrue result ↔ IsStretch from to }
{
    let some = from < to;
    let low = -MOST_COORDINATE <= from;
    let high = to <= MOST_COORDINATE;
    some & low & high
}
