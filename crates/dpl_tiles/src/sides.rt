// The sides of a polygon, found by the columns and the row where they stand.
ghost use Rattle.std.specs.Prelude.{◌≡◌, ◌<◌, length, All, IfOk, map, ◌∷◌};
ghost use Rattle.dpl_cell.specs.Places.{place_of};
ghost use Rattle.dpl_cell.specs.Layers.{is_within};
ghost use Rattle.dpl_tiles.specs.Sides.{AreAllSidesOf, AreColumnsAmong, IsSideOf, bounds_of_side};

use crate::cancelling::cancelled;
use crate::columns::{Columns, row_within};
use crate::side::Side;
use dpl_cell::Point;
use dpl_index::{Bounds, Index};
use std::alloc::{AllocError, Global};
use std::marker::Model;

/// Finds the sides of a polygon that stand in a part of a row. Contracts see it as the list of all its sides.
#[derive(Drop)]
pub struct Sides {
    all: Vec<Side>,
    index: Index,
}

impl Model for Sides {
    ghost use Rattle.std.specs.Prelude.{◌≡◌, List, map};
    ghost use Rattle.dpl_tiles.specs.declared.side.Side.{Side};
    ghost use Rattle.dpl_tiles.specs.Sides.{bounds_of_side};

    ghost Value = { List Side };

    ghost view = { λ s. s.all.items };

    ghost invariant = { λ s. s.index ≡ map bounds_of_side s.all.items };
}

impl Sides {
    ghost use Rattle.std.specs.Prelude.{IfOk, map};
    ghost use Rattle.dpl_cell.specs.Places.{place_of};
    ghost use Rattle.dpl_tiles.specs.Sides.{AreCrossingsWithin, AreSidesOf};

    /// The sides of a polygon, without those that cover the same rows of a column. It takes about n log n steps for n corners.
    pub fn new(alloc: Global, points: &[Point]) -> Result<Sides, AllocError>
        ensures { IfOk result (λ sides. AreSidesOf (map place_of points.now) sides) }
    {
        let drawn = sides_along(alloc, points)?;
        let all = cancelled(alloc, drawn.as_slice())?;
        let bounds = all_bounds(alloc, all.as_slice())?;
        let index = Index::new(alloc, bounds)?;
        Ok(Sides { all, index })
    }

    /// The columns in a window of the sides that span a row.
    pub fn crossings(&self, alloc: Global, window: &Columns, y: i64) -> Result<Vec<i64>, AllocError>
        ensures { IfOk result (λ v. AreCrossingsWithin self.now y window.now.left window.now.right
            v.items) }
    {
        let found = self.index.meeting(alloc, &row_within(window, y))?;
        let columns = columns_among(alloc, self.all.as_slice(), found.as_slice(), y)?;
        Ok(columns)
    }
}

fn sides_along(alloc: Global, points: &[Point]) -> Result<Vec<Side>, AllocError>
    ensures { IfOk result (λ v. AreAllSidesOf (map place_of points.now) v.items) }
{
    match points.split_first() {
        None => Ok(Vec::new(alloc)),
        Some((first, rest)) => sides_from(alloc, first, rest),
    }
}

/// The sides of a polygon, from its first corner through the others and back.
fn sides_from(alloc: Global, first: &Point, rest: &[Point]) -> Result<Vec<Side>, AllocError>
    ensures { IfOk result (λ v. AreAllSidesOf (map place_of (first.now ∷ rest.now)) v.items) }
{
    let mut sides = Vec::new(alloc);
    let mut before = *first;
    for p in rest {
        sides.push(side_between(&before, p))?;
        before = *p;
    }
    sides.push(side_between(&before, first))?;
    Ok(sides)
}

fn side_between(p: &Point, q: &Point) -> Side
    ensures { IsSideOf (place_of p.now) (place_of q.now) result }
{
    let low = p.y.min(q.y);
    let high = p.y.max(q.y);
    Side {
        column: p.x,
        low,
        high,
    }
}

fn all_bounds(alloc: Global, sides: &[Side]) -> Result<Vec<Bounds>, AllocError>
    ensures { IfOk result (λ v. v.items ≡ map bounds_of_side sides.now) }
{
    sides.iter().map(bounds_of).collect(alloc)
}

fn bounds_of(side: &Side) -> Bounds
    ensures { result ≡ bounds_of_side side.now }
{
    Bounds {
        left: side.column,
        right: side.column,
        low: side.low,
        high: side.high,
    }
}

/// Where those of some sides stand that span a row.
fn columns_among(
    alloc: Global,
    sides: &[Side],
    found: &[usize],
    y: i64,
) -> Result<Vec<i64>, AllocError>
    requires { All (λ i. i < length sides.now) found.now }
    ensures { IfOk result (λ v. AreColumnsAmong sides.now found.now y v.items) }
{
    let mut columns = Vec::new(alloc);
    for i in found {
        let side = &sides[*i];
        if spans(side, y) {
            columns.push(side.column)?;
        }
    }
    Ok(columns)
}

/// Whether a side spans a row.
fn spans(side: &Side, y: i64) -> bool
    ensures { result ≡ is_within side.now.low side.now.high y }
{
    side.low <= y && y < side.high
}
