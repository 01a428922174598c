// The bounds of polygons, for an index that tells which of them can have cells in a part of a row.
ghost use Rattle.std.specs.Prelude.{◌≤ℤ◌, All, IfOk, OnOk, filter};
ghost use Rattle.dpl_tiles.specs.Bounds.{AddsBounds, AreBoundsOf};
ghost use Rattle.dpl_tiles.specs.Finders.{is_polygon};

use crate::columns::{greater, lesser};
use dpl_cell::{Point, Prim};
use dpl_index::Bounds;
use std::alloc::{AllocError, Global};

/// The bounds of each polygon.
pub fn all_bounds(alloc: Global, prims: &[Prim]) -> Result<Vec<Bounds>, AllocError>
    ensures { IfOk result (λ v. AreBoundsOf (filter is_polygon prims.now) v.items) }
{
    let mut bounds = Vec::new(alloc);
    for prim in prims {
        push_bounds(&mut bounds, prim)?;
    }
    Ok(bounds)
}

/// Adds the bounds of a polygon.
fn push_bounds(bounds: &mut Vec<Bounds>, prim: &Prim) -> Result<(), AllocError>
    ensures { OnOk result (AddsBounds prim.now bounds.old.items bounds.new.items) }
{
    match prim {
        Prim::Box(_) => Ok(()),
        Prim::Poly(points) => {
            bounds.push(bounds_of_points(points.as_slice()))?;
            Ok(())
        }
    }
}

fn bounds_of_points(points: &[Point]) -> Bounds
    ensures lies { All (λ p. (result.low ≤ℤ p.y) × (p.y ≤ℤ result.high)) points.now }
    ensures spans { All (λ p. (result.left ≤ℤ p.x) × (p.x ≤ℤ result.right)) points.now }
{
    let mut left = i64::MAX;
    let mut right = i64::MIN;
    let mut low = i64::MAX;
    let mut high = i64::MIN;
    for p in points {
        left = lesser(left, p.x);
        right = greater(right, p.x);
        low = lesser(low, p.y);
        high = greater(high, p.y);
    }
    Bounds {
        left,
        right,
        low,
        high,
    }
}
