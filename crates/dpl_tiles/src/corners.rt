// The corners of primitives row by row from the left, each with the columns of a side that ends there.
ghost use Rattle.std.specs.Prelude.{◌≡◌, ◌≤ℤ◌, ◌<ℤ◌, ◌≤◌, length, All, AllPairs, IfOk, IsPermutation, OnOk, ◌∷◌, ◌++◌, []};
ghost use Rattle.std.specs.List.Sorted.{IsPartitionPoint};
ghost use Rattle.dpl_cell.specs.declared.layout.Primitive.TheVariants as prim;
ghost use Rattle.dpl_list.specs.Order.{Ascends};
ghost use Rattle.dpl_tiles.specs.Corners.{AddsCorners, AddsSide, AreBetween, AreCorners, AreCornersAt, AreInRange, ComesBefore, HasCornersOf, IsCornerOf, SpansSide};

use crate::columns::{Columns, Places, greater, lesser};
use dpl_cell::{Point, Prim, Rect};
use std::alloc::{AllocError, Global};

/// The ordinate of a corner, and the columns of a side that ends there.
#[derive(Clone, Copy, Debug)]
pub struct Corner {
    pub y: i64,
    pub left: i64,
    pub right: i64,
}

/// The corners of all primitives, the lowest first, and those of one row from the left. Lower sides and the others are
/// sorted apart, since each list is often in order as it comes.
pub fn corners_of(alloc: Global, prims: &[Prim]) -> Result<Vec<Corner>, AllocError>
    ensures { IfOk result (λ v. AreCorners prims.now v.items) }
{
    let mut corners = Vec::with_capacity(alloc, prims.len().saturating_mul(2))?;
    let mut upper = Vec::with_capacity(alloc, prims.len())?;
    push_all(&mut corners, &mut upper, prims)?;
    sort(&mut corners);
    sort(&mut upper);
    corners.extend_from_slice(upper.as_slice())?;
    corners.sort_by_key(|c| (c.y, c.left))?;
    Ok(corners)
}

fn sort(corners: &mut Vec<Corner>)
    ensures { IsPermutation corners.old.items corners.new.items }
{
    corners.sort_unstable_by_key(|c| (c.y, c.left));
}

/// The corners of all primitives: the lower sides of boxes, and all others.
fn push_all(
    lower: &mut Vec<Corner>,
    others: &mut Vec<Corner>,
    prims: &[Prim],
) -> Result<(), AllocError>
    requires none { lower.old.items ++ others.old.items ≡ [] }
    ensures has { OnOk result (All (HasCornersOf (lower.new.items ++ others.new.items)) prims.now) }
    ensures range { OnOk result (AreInRange (lower.new.items ++ others.new.items)) }
{
    for prim in prims {
        push_corners(lower, others, prim)?;
    }
    Ok(())
}

fn push_corners(
    lower: &mut Vec<Corner>,
    others: &mut Vec<Corner>,
    prim: &Prim,
) -> Result<(), AllocError>
    ensures { OnOk result (AddsCorners prim.now (lower.old.items ++ others.old.items)
        (lower.new.items ++ others.new.items)) }
{
    match prim {
        Prim::Box(r) => push_sides(lower, others, r),
        Prim::Poly(points) => {
            push_points(others, points.as_slice())?;
            Ok(())
        }
    }
}

/// The lower and the upper side of a box.
fn push_sides(lower: &mut Vec<Corner>, upper: &mut Vec<Corner>, r: &Rect) -> Result<(), AllocError>
    ensures { OnOk result (AddsCorners (prim.Box r.now) (lower.old.items ++ upper.old.items)
        (lower.new.items ++ upper.new.items)) }
{
    let columns = Columns {
        left: r.x1,
        right: r.x2,
    };
    lower.push(corner_at(r.y1, &columns))?;
    upper.push(corner_at(r.y2, &columns))?;
    Ok(())
}

fn push_points(corners: &mut Vec<Corner>, points: &[Point]) -> Result<(), AllocError>
    ensures { OnOk result (AddsCorners (prim.Poly points.now) corners.old.items corners.new.items) }
{
    match points.split_first() {
        None => Ok(()),
        Some((first, rest)) => push_round(corners, first, rest),
    }
}

/// The sides of a polygon, from its first corner through the others and back.
fn push_round(corners: &mut Vec<Corner>, first: &Point, rest: &[Point]) -> Result<(), AllocError>
    ensures { OnOk result (AddsCorners (prim.Poly (first.now ∷ rest.now)) corners.old.items
        corners.new.items) }
{
    let mut before = *first;
    for p in rest {
        push_side(corners, &before, p)?;
        before = *p;
    }
    push_side(corners, &before, first)?;
    Ok(())
}

/// Both ends of a side.
fn push_side(corners: &mut Vec<Corner>, p: &Point, q: &Point) -> Result<(), AllocError>
    ensures { OnOk result (AddsSide p.now q.now corners.old.items corners.new.items) }
{
    let columns = columns_between(p, q);
    corners.push(corner_at(p.y, &columns))?;
    corners.push(corner_at(q.y, &columns))?;
    Ok(())
}

fn columns_between(p: &Point, q: &Point) -> Columns
    ensures { SpansSide result.left result.right p.now q.now }
{
    let left = lesser(p.x, q.x);
    let right = greater(p.x, q.x);
    Columns { left, right }
}

fn corner_at(y: i64, columns: &Columns) -> Corner
    ensures { IsCornerOf y columns.now.left columns.now.right result }
{
    Corner {
        y,
        left: columns.left,
        right: columns.right,
    }
}

/// The corners at a row, from the left.
pub fn corners_at(corners: &[Corner], y: i64) -> &[Corner]
    requires { AllPairs ComesBefore corners.now }
    ensures { AreCornersAt corners.now y result.now }
{
    let places = places_at(corners, y);
    &corners[places.from..places.to]
}

/// The places of the corners at a row.
fn places_at(corners: &[Corner], y: i64) -> Places
    requires { Ascends (λ c. c.y) corners.now }
    ensures { AreBetween corners.now y result.from result.to }
{
    let from = first_from(corners, y);
    let to = first_past(corners, y);
    Places { from, to }
}

/// The place of the first corner that is not below a row.
fn first_from(corners: &[Corner], y: i64) -> usize
    requires { Ascends (λ c. c.y) corners.now }
    ensures within { result ≤ length corners.now }
    ensures place { IsPartitionPoint (λ c. c.y <ℤ y) (λ c. y ≤ℤ c.y) corners.now result }
{
    corners.partition_point(|c| c.y < y)
}

/// The place of the first corner above a row.
fn first_past(corners: &[Corner], y: i64) -> usize
    requires { Ascends (λ c. c.y) corners.now }
    ensures within { result ≤ length corners.now }
    ensures place { IsPartitionPoint (λ c. c.y ≤ℤ y) (λ c. y <ℤ c.y) corners.now result }
{
    corners.partition_point(|c| c.y <= y)
}

/// The columns of a corner.
pub fn columns_of(corner: &Corner) -> Columns
    ensures left { result.left ≡ corner.now.left }
    ensures right { corner.now.right ≤ℤ result.right }
    ensures some { result.left ≤ℤ result.right }
{
    let right = greater(corner.left, corner.right);
    Columns {
        left: corner.left,
        right,
    }
}

/// The columns, and to the right of them those of a corner.
pub fn widened(columns: &Columns, corner: &Corner) -> Columns
    ensures left { result.left ≡ columns.now.left }
    ensures right { columns.now.right ≤ℤ result.right }
    ensures own { corner.now.right ≤ℤ result.right }
{
    let right = greater(columns.right, corner.right);
    Columns {
        left: columns.left,
        right,
    }
}
