//! How segments of the plane lie to each other.

ghost use Rattle.std.specs.Prelude.{◌≡◌, ℤ, pos, neg_ℤ, ◌≤ℤ◌, ◌*ℤ◌, ◌-ℤ◌, ◌^◌, ◌&&◌, ◌||◌, not, int_le};
ghost use Rattle.dpl_euler.specs.Segments.{ends_of, is_left as lies_left, is_right as lies_right, are_left as lie_left, are_right as lie_right, is_beside as lies_beside, is_on as lies_on, is_along as lies_along, spans_meet as do_spans_meet, spans_overlap as do_spans_overlap, bounds_meet as do_bounds_meet, segments_meet as do_meet, segments_overlap as do_segments_overlap};

use crate::segment::Segment;
use dpl_cell::meet;

/// How far one coordinate lies above another.
fn difference(a: i64, b: i64) -> i64
    requires low_a { neg_ℤ (pos (2 ^ 31)) ≤ℤ a }
    requires high_a { a ≤ℤ pos (2 ^ 31) }
    requires low_b { neg_ℤ (pos (2 ^ 31)) ≤ℤ b }
    requires high_b { b ≤ℤ pos (2 ^ 31) }
    ensures value { result ≡ a -ℤ b }
    ensures low { neg_ℤ (pos (2 ^ 32)) ≤ℤ result }
    ensures high { result ≤ℤ pos (2 ^ 32) }
{
    a - b
}

/// A product of two such differences.
fn product(a: i64, b: i64) -> i128
    requires low_a { neg_ℤ (pos (2 ^ 32)) ≤ℤ a }
    requires high_a { a ≤ℤ pos (2 ^ 32) }
    requires low_b { neg_ℤ (pos (2 ^ 32)) ≤ℤ b }
    requires high_b { b ≤ℤ pos (2 ^ 32) }
    ensures { result ≡ a *ℤ b }
{
    i128::from(a) * i128::from(b)
}

/// Whether a point lies left of the line of a segment.
fn is_left(s: &Segment, x: i64, y: i64) -> bool
    requires low_x { neg_ℤ (pos (2 ^ 31)) ≤ℤ x }
    requires high_x { x ≤ℤ pos (2 ^ 31) }
    requires low_y { neg_ℤ (pos (2 ^ 31)) ≤ℤ y }
    requires high_y { y ≤ℤ pos (2 ^ 31) }
    ensures { result ≡ lies_left (ends_of s.now) x y }
{
    let rise = product(difference(s.y2, s.y1), difference(x, s.x1));
    let run = product(difference(s.x2, s.x1), difference(y, s.y1));
    rise < run
}

/// Whether a point lies right of the line of a segment.
fn is_right(s: &Segment, x: i64, y: i64) -> bool
    requires low_x { neg_ℤ (pos (2 ^ 31)) ≤ℤ x }
    requires high_x { x ≤ℤ pos (2 ^ 31) }
    requires low_y { neg_ℤ (pos (2 ^ 31)) ≤ℤ y }
    requires high_y { y ≤ℤ pos (2 ^ 31) }
    ensures { result ≡ lies_right (ends_of s.now) x y }
{
    let run = product(difference(s.x2, s.x1), difference(y, s.y1));
    let rise = product(difference(s.y2, s.y1), difference(x, s.x1));
    run < rise
}

/// Whether both ends of a segment lie left of the line of another.
pub fn are_left(s: &Segment, t: &Segment) -> bool
    ensures { result ≡ lie_left (ends_of s.now) (ends_of t.now) }
{
    is_left(s, t.x1, t.y1) && is_left(s, t.x2, t.y2)
}

/// Whether both ends of a segment lie right of the line of another.
pub fn are_right(s: &Segment, t: &Segment) -> bool
    ensures { result ≡ lie_right (ends_of s.now) (ends_of t.now) }
{
    is_right(s, t.x1, t.y1) && is_right(s, t.x2, t.y2)
}

/// Whether the line of a segment leaves the whole of another on one side.
fn is_beside(s: &Segment, t: &Segment) -> bool
    ensures { result ≡ lies_beside (ends_of s.now) (ends_of t.now) }
{
    are_left(s, t) || are_right(s, t)
}

/// Whether a point lies on the line of a segment.
fn is_on(s: &Segment, x: i64, y: i64) -> bool
    requires low_x { neg_ℤ (pos (2 ^ 31)) ≤ℤ x }
    requires high_x { x ≤ℤ pos (2 ^ 31) }
    requires low_y { neg_ℤ (pos (2 ^ 31)) ≤ℤ y }
    requires high_y { y ≤ℤ pos (2 ^ 31) }
    ensures { result ≡ lies_on (ends_of s.now) x y }
{
    let off = is_left(s, x, y) || is_right(s, x, y);
    !off
}

/// Whether the line of a segment goes through both ends of another.
fn is_along(s: &Segment, t: &Segment) -> bool
    ensures { result ≡ lies_along (ends_of s.now) (ends_of t.now) }
{
    is_on(s, t.x1, t.y1) && is_on(s, t.x2, t.y2)
}

/// Whether two ranges of places, their ends among them, have one in common.
fn ranges_meet(low_a: i64, high_a: i64, low_b: i64, high_b: i64) -> bool
    ensures { result ≡ (int_le low_a high_b && int_le low_b high_a) }
{
    low_a <= high_b && low_b <= high_a
}

/// The same of two ranges that are each given by their ends in any order.
fn spans_meet(a1: i64, a2: i64, b1: i64, b2: i64) -> bool
    ensures { result ≡ do_spans_meet a1 a2 b1 b2 }
{
    ranges_meet(a1.min(a2), a1.max(a2), b1.min(b2), b1.max(b2))
}

/// Whether they have more than one place in common.
fn spans_overlap(a1: i64, a2: i64, b1: i64, b2: i64) -> bool
    ensures { result ≡ do_spans_overlap a1 a2 b1 b2 }
{
    meet(a1.min(a2), a1.max(a2), b1.min(b2), b1.max(b2))
}

/// Whether the least upright rectangles around two segments have a point in common.
pub fn bounds_meet(s: &Segment, t: &Segment) -> bool
    ensures { result ≡ do_bounds_meet (ends_of s.now) (ends_of t.now) }
{
    spans_meet(s.x1, s.x2, t.x1, t.x2) && spans_meet(s.y1, s.y2, t.y1, t.y2)
}

/// Whether one of two segments lies on one side of the line of the other.
fn are_beside(s: &Segment, t: &Segment) -> bool
    ensures { result ≡ (lies_beside (ends_of s.now) (ends_of t.now)
        || lies_beside (ends_of t.now) (ends_of s.now)) }
{
    is_beside(s, t) || is_beside(t, s)
}

/// Whether two segments have a point in common.
pub fn segments_meet(s: &Segment, t: &Segment) -> bool
    ensures { result ≡ do_meet (ends_of s.now) (ends_of t.now) }
{
    bounds_meet(s, t) && !are_beside(s, t)
}

/// Whether the columns or the rows of two segments overlap.
fn do_overlap(s: &Segment, t: &Segment) -> bool
    ensures { result ≡ (do_spans_overlap s.now.x1 s.now.x2 t.now.x1 t.now.x2
        || do_spans_overlap s.now.y1 s.now.y2 t.now.y1 t.now.y2) }
{
    spans_overlap(s.x1, s.x2, t.x1, t.x2) || spans_overlap(s.y1, s.y2, t.y1, t.y2)
}

/// Whether two segments meet on one line.
fn meet_along(s: &Segment, t: &Segment) -> bool
    ensures { result ≡ (do_meet (ends_of s.now) (ends_of t.now)
        && lies_along (ends_of s.now) (ends_of t.now)) }
{
    segments_meet(s, t) && is_along(s, t)
}

/// Whether two segments have more than one point in common.
pub fn segments_overlap(s: &Segment, t: &Segment) -> bool
    ensures { result ≡ do_segments_overlap (ends_of s.now) (ends_of t.now) }
{
    meet_along(s, t) && do_overlap(s, t)
}
