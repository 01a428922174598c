// Corners of a row with no stack between them, and the stacks near them.
ghost use Rattle.std.specs.Prelude.{◌≡◌, true, false, ℤ, ◌<ℤ◌, ◌≤ℤ◌, ◌<◌, length, slice_index_or, All, AllPairs, Any, IfOk, reverse};
ghost use Rattle.dpl_tiles.specs.declared.corners.Corner.{Corner};
ghost use Rattle.dpl_stacks.specs.Stacks.{IsLeftOf, before_of, behind_of, stacks_of, IsParted};
ghost use Rattle.dpl_tiles.specs.Clusters.{IsCluster};

use crate::columns::Columns;
use crate::corners::{Corner, columns_of, widened};
use dpl_cell::Rect;
use dpl_stacks::{Stacks, part, take_near};
use std::alloc::{AllocError, Global};

/// The columns of corners with no stack between them, the stacks near these columns, and the place of the next corner.
#[derive(Drop)]
pub struct Cluster {
    pub change: Columns,
    pub near: Vec<Rect>,
    pub to: usize,
}

/// Takes out the stacks near the corners from a place on, up to one that begins behind a stack that is not near them.
pub fn gather(
    alloc: Global,
    stacks: &mut Stacks,
    corners: &[Corner],
    at: usize,
) -> Result<Cluster, AllocError>
    requires ordered { AllPairs IsLeftOf (stacks_of stacks.old) }
    requires inside { at < length corners.now }
    ensures parted { IfOk result (λ v. IsParted (stacks_of stacks.old) v.change.left v.change.right
        (before_of stacks.new) v.near.items (behind_of stacks.new)) }
    ensures cluster { IfOk result (λ v.
        IsCluster corners.now at v.to v.change.left v.change.right v.near.items) }
{
    let mut change = columns_of(&corners[at]);
    let mut near = part(alloc, stacks, change.left, change.right)?;
    let mut to = at + 1;
    'wider: while goes_on(corners, to, stacks.right.as_slice()) {
        change = widened(&change, &corners[to]);
        take_near(stacks, &mut near, change.right)?;
        to += 1;
    }
    Ok(Cluster { change, near, to })
}

/// Whether there is a corner at a place before which no stack begins, of those given from the right.
fn goes_on(corners: &[Corner], at: usize, right: &[Rect]) -> bool
    requires { AllPairs IsLeftOf (reverse right.now) }
    ensures some { result ≡ true → at < length corners.now }
    ensures none { result ≡ false → (d : Corner) → at < length corners.now →
        Any (λ r. r.x1 <ℤ (slice_index_or corners.now at d).left) right.now }
{
    match corners.get(at) {
        None => false,
        Some(corner) => are_from(right, corner.left),
    }
}

/// Whether no stack, of those given from the right, begins left of a column.
fn are_from(right: &[Rect], column: i64) -> bool
    requires { AllPairs IsLeftOf (reverse right.now) }
    ensures all { result ≡ true → All (λ r. column ≤ℤ r.x1) right.now }
    ensures some { result ≡ false → Any (λ r. r.x1 <ℤ column) right.now }
{
    match right.last() {
        None => true,
        Some(r) => column <= r.x1,
    }
}
