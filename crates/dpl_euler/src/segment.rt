//! A segment of the plane.

ghost use Rattle.std.specs.Prelude.{pos, neg_ℤ, ◌≤ℤ◌, ◌^◌};

/// A segment from one point to another, in doubled grid units.
#[derive(Clone, Copy, Debug)]
pub struct Segment {
    pub x1: i64,
    pub y1: i64,
    pub x2: i64,
    pub y2: i64,
    pub ghost low_x1: { neg_ℤ (pos (2 ^ 31)) ≤ℤ x1 },
    pub ghost high_x1: { x1 ≤ℤ pos (2 ^ 31) },
    pub ghost low_y1: { neg_ℤ (pos (2 ^ 31)) ≤ℤ y1 },
    pub ghost high_y1: { y1 ≤ℤ pos (2 ^ 31) },
    pub ghost low_x2: { neg_ℤ (pos (2 ^ 31)) ≤ℤ x2 },
    pub ghost high_x2: { x2 ≤ℤ pos (2 ^ 31) },
    pub ghost low_y2: { neg_ℤ (pos (2 ^ 31)) ≤ℤ y2 },
    pub ghost high_y2: { y2 ≤ℤ pos (2 ^ 31) },
}
