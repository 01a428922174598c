//! The links of a net as segments.

ghost use Rattle.std.specs.Prelude.{◌≡◌, ◌<◌, ℕ, ℤ, pos, neg_ℤ, ◌≤ℤ◌, ◌*ℤ◌, ◌^◌, ◌&&◌, ◌||◌, not, length, IfOk};
ghost use Rattle.dpl_limits.specs.Limits.{most_coordinate};
ghost use Rattle.dpl_cell.specs.Places.{corners_of};
ghost use Rattle.dpl_euler.specs.Segments.{ends_of};
ghost use Rattle.dpl_euler.specs.Crossings.{leaving as left_at, link_between};
ghost use Rattle.dpl_euler.specs.Tests.{is_at as are_at, ends_at as do_end_at, share_end as do_share_end, cross as do_cross, diagonal as the_diagonal, other_diagonal as the_other_diagonal, passes_by as does_pass_by, meets_rect as does_meet_rect};

use crate::segment::Segment;
use crate::segments::{are_left, are_right, bounds_meet, segments_meet, segments_overlap};
use dpl_cell::Rect;
use dpl_sign::Edge;

/// The doubled place at which a stretch is left towards another: the middle of what they have in
/// common, or else the end that is next to the other.
fn leaving(a1: i64, a2: i64, b1: i64, b2: i64) -> i64
    requires low_a1 { neg_ℤ (pos most_coordinate) ≤ℤ a1 }
    requires high_a1 { a1 ≤ℤ pos most_coordinate }
    requires low_a2 { neg_ℤ (pos most_coordinate) ≤ℤ a2 }
    requires high_a2 { a2 ≤ℤ pos most_coordinate }
    requires low_b1 { neg_ℤ (pos most_coordinate) ≤ℤ b1 }
    requires high_b1 { b1 ≤ℤ pos most_coordinate }
    requires low_b2 { neg_ℤ (pos most_coordinate) ≤ℤ b2 }
    requires high_b2 { b2 ≤ℤ pos most_coordinate }
    ensures value { result ≡ left_at a1 a2 b1 b2 }
    ensures low { neg_ℤ (pos (2 ^ 31)) ≤ℤ result }
    ensures high { result ≤ℤ pos (2 ^ 31) }
{
    let from = a1.max(b1);
    let to = a2.min(b2);
    if from < to {
        return from + to;
    }
    if a2 <= b1 {
        return 2 * a2;
    }
    2 * a1
}

/// The link of two rectangles.
pub fn link_of(a: &Rect, b: &Rect) -> Segment
    ensures { ends_of result ≡ link_between (corners_of a.now) (corners_of b.now) }
{
    let x1 = leaving(a.x1, a.x2, b.x1, b.x2);
    let y1 = leaving(a.y1, a.y2, b.y1, b.y2);
    let x2 = leaving(b.x1, b.x2, a.x1, a.x2);
    let y2 = leaving(b.y1, b.y2, a.y1, a.y2);
    Segment { x1, y1, x2, y2 }
}

/// Whether two points are one.
fn is_at(x: i64, y: i64, to_x: i64, to_y: i64) -> bool
    ensures { result ≡ are_at x y to_x to_y }
{
    x == to_x && y == to_y
}

/// Whether the link of an edge ends on a fragment at a point.
fn ends_at(edge: &Edge, link: &Segment, fragment: u32, x: i64, y: i64) -> bool
    ensures { result ≡ do_end_at edge.now (ends_of link.now) fragment x y }
{
    let first = (edge.a == fragment) & is_at(link.x1, link.y1, x, y);
    let second = (edge.b == fragment) & is_at(link.x2, link.y2, x, y);
    first | second
}

/// Whether the links of two edges have an end in common, on a fragment that both join.
fn share_end(edge: &Edge, link: &Segment, other: &Edge, to: &Segment) -> bool
    ensures { result ≡ do_share_end edge.now (ends_of link.now) other.now (ends_of to.now) }
{
    ends_at(other, to, edge.a, link.x1, link.y1) || ends_at(other, to, edge.b, link.x2, link.y2)
}

/// Whether the links of two edges cross.
pub fn cross(edge: &Edge, link: &Segment, other: &Edge, to: &Segment) -> bool
    ensures { result ≡ do_cross edge.now (ends_of link.now) other.now (ends_of to.now) }
{
    if share_end(edge, link, other, to) {
        segments_overlap(link, to)
    } else {
        segments_meet(link, to)
    }
}

/// A rectangle as the segment from its lower left corner to its upper right one.
pub fn diagonal(rect: &Rect) -> Segment
    ensures { ends_of result ≡ the_diagonal (corners_of rect.now) }
{
    Segment {
        x1: 2 * rect.x1,
        y1: 2 * rect.y1,
        x2: 2 * rect.x2,
        y2: 2 * rect.y2,
    }
}

/// The segment between the two other corners.
fn other_diagonal(rect: &Rect) -> Segment
    ensures { ends_of result ≡ the_other_diagonal (corners_of rect.now) }
{
    Segment {
        x1: 2 * rect.x1,
        y1: 2 * rect.y2,
        x2: 2 * rect.x2,
        y2: 2 * rect.y1,
    }
}

/// Whether the line of a segment leaves a whole rectangle on one side.
fn passes_by(link: &Segment, rect: &Rect) -> bool
    ensures { result ≡ does_pass_by (ends_of link.now) (corners_of rect.now) }
{
    let one = diagonal(rect);
    let other = other_diagonal(rect);
    let left = are_left(link, &one) & are_left(link, &other);
    let right = are_right(link, &one) & are_right(link, &other);
    left | right
}

/// Whether a segment and a rectangle, with its border, have a point in common.
pub fn meets_rect(link: &Segment, rect: &Rect) -> bool
    ensures { result ≡ does_meet_rect (ends_of link.now) (corners_of rect.now) }
{
    bounds_meet(link, &diagonal(rect)) && !passes_by(link, rect)
}
