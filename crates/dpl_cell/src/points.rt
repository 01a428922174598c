// The corners of a polygon whose sides are level or upright.
ghost use Rattle.std.specs.Prelude.{◌≡◌, true, map};
ghost use Rattle.dpl_cell.specs.Places.{place_of};
ghost use Rattle.dpl_cell.specs.Ranges as ranges;

use crate::point::Point;
use std::marker::Model;

/// The corners of a polygon in order, each side between them level or upright.
#[derive(Drop)]
pub struct Points {
    corners: Vec<Point>,
}

impl Model for Points {
    ghost use Rattle.std.specs.Prelude.{◌≡◌, true, List, map};
    ghost use Rattle.dpl_cell.specs.Ranges.{has_straight_sides};
    ghost use Rattle.dpl_cell.specs.Places.{place_of};
    ghost use Rattle.dpl_cell.specs.declared.point.Point.{Point};

    ghost Value = { List Point };

    ghost view = { λ p. p.corners.items };

    ghost invariant = { λ p. has_straight_sides (map place_of p.corners.items) ≡ true };
}

impl Points {
    ghost use Rattle.std.specs.Prelude.{Some, None, if◌then◌else◌};

    /// The polygon with these corners, `None` where a side is neither level nor upright.
    pub fn new(corners: Vec<Point>) -> Option<Points>
        ensures { result ≡ (if ranges.has_straight_sides (map place_of corners.items)
            then Some corners.items else None) }
    {
        if has_straight_sides(corners.as_slice()) {
            Some(Points { corners })
        } else {
            None
        }
    }

    /// The corners in their order, in grid units.
    pub fn as_slice(&self) -> &[Point]
        ensures value { result.now ≡ self.now }
        ensures straight { ranges.has_straight_sides (map place_of self.now) ≡ true }
    {
        self.corners.as_slice()
    }
}

fn is_straight(p: &Point, q: &Point) -> bool
    ensures { result ≡ ranges.is_straight (place_of p.now) (place_of q.now) }
{
    p.x == q.x || p.y == q.y
}

fn has_straight_sides(corners: &[Point]) -> bool
    ensures { result ≡ ranges.has_straight_sides (map place_of corners.now) }
{
    let Some((first, rest)) = corners.split_first() else {
        return true;
    };
    let mut before = *first;
    for p in rest {
        if !is_straight(&before, p) {
            return false;
        }
        before = *p;
    }
    is_straight(&before, first)
}
