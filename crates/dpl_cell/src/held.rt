// Which cells a layer holds: those of its boxes and, by the even-odd rule, of its polygons.
ghost use Rattle.std.specs.Prelude.{◌≡◌, map};
ghost use Rattle.std.specs.List.{list_any};
ghost use Rattle.dpl_cell.specs.Places.{corners_of, place_of};
ghost use Rattle.dpl_cell.specs.Outlines.{outline_of};
ghost use Rattle.dpl_cell.specs.Layers.{is_cell, is_in_outline, is_in_polygon, is_in_box, is_left_side};

use crate::layout::Primitive;
use crate::point::Point;
use crate::rect::Rect;
use crate::spans::is_between;

fn is_in_rect(r: &Rect, x: i64, y: i64) -> bool
    ensures { result ≡ is_in_box (corners_of r.now) x y }
{
    is_between(r.x1, r.x2, x) && is_between(r.y1, r.y2, y)
}

fn is_left(p: &Point, q: &Point, x: i64, y: i64) -> bool
    ensures { result ≡ is_left_side x y (place_of p.now) (place_of q.now) }
{
    p.x <= x && is_between(p.y.min(q.y), p.y.max(q.y), y)
}

fn is_in_points(points: &[Point], x: i64, y: i64) -> bool
    ensures { result ≡ is_in_polygon (map place_of points.now) x y }
{
    let Some((first, rest)) = points.split_first() else {
        return false;
    };
    let mut count = 0usize;
    let mut before = *first;
    for p in rest {
        if is_left(&before, p, x, y) {
            count += 1;
        }
        before = *p;
    }
    if is_left(&before, first, x, y) {
        count += 1;
    }
    count % 2 == 1
}

fn covers(prim: &Primitive, x: i64, y: i64) -> bool
    ensures { result ≡ is_in_outline x y (outline_of prim.now) }
{
    match prim {
        Primitive::Box(r) => is_in_rect(r, x, y),
        Primitive::Poly(points) => is_in_points(points.as_slice(), x, y),
    }
}

fn any_covers(prims: &[Primitive], x: i64, y: i64) -> bool
    ensures { result ≡ list_any (λ p. is_in_outline x y (outline_of p)) prims.now }
{
    prims.iter().any(|p| covers(p, x, y))
}

/// Whether a layer holds a cell.
pub fn is_held(prims: &[Primitive], x: i64, y: i64) -> bool
    ensures { result ≡ is_cell (map outline_of prims.now) x y }
{
    any_covers(prims, x, y)
}
