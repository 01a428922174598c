// The stacks left of columns, near them and right of them.
ghost use Rattle.std.specs.Prelude.{◌≡◌, ◌⊎◌, true, false, ℤ, ◌<◌, ◌<ℤ◌, ◌≤ℤ◌, ◌≤◌, ◌++◌, length, All, AllPairs, IfOk, OnOk, reverse, []};
ghost use Rattle.std.specs.List.Sorted.{IsPartitionPoint};
ghost use Rattle.dpl_stacks.specs.Stacks.{before_of, behind_of, stacks_of, IsLeftOf, IsParted, IsAtColumn};

use crate::moving::move_back;
use crate::passing::approach;
use crate::stacks::Stacks;
use dpl_cell::Rect;
use std::alloc::{AllocError, Global};

/// Takes out the stacks that meet the columns from `left` to `right` or end or begin right beside
/// them, in grid units. The place lies then between those left of the columns and those right of
/// them.
///
/// # Errors
///
/// `AllocError` where memory runs out.
pub fn part(
    alloc: Global,
    stacks: &mut Stacks,
    left: i64,
    right: i64,
) -> Result<Vec<Rect>, AllocError>
    requires ordered { AllPairs IsLeftOf (stacks_of stacks.old) }
    requires some { left ≤ℤ right }
    ensures { IfOk result (λ near. IsParted (stacks_of stacks.old) left right
        (before_of stacks.new) near.items (behind_of stacks.new)) }
{
    let mut near = Vec::new(alloc);
    seek(alloc, stacks, left)?;
    take_near(stacks, &mut near, right)?;
    Ok(near)
}

/// Moves the place to a column.
fn seek(alloc: Global, stacks: &mut Stacks, column: i64) -> Result<(), AllocError>
    requires { AllPairs IsLeftOf (stacks_of stacks.old) }
    ensures { OnOk result (IsAtColumn column stacks.old stacks.new) }
{
    approach(alloc, stacks, column)?;
    let from = first_not_left(stacks.left.as_slice(), column);
    move_back(&mut stacks.left, &mut stacks.right, from)?;
    let count = first_left(stacks.right.as_slice(), column);
    move_back(&mut stacks.right, &mut stacks.left, count)?;
    Ok(())
}

/// Takes out the stacks behind the place that do not begin right of a column, and adds them to
/// those near it.
///
/// # Errors
///
/// `AllocError` where memory runs out.
pub fn take_near(stacks: &mut Stacks, near: &mut Vec<Rect>, column: i64) -> Result<(), AllocError>
    requires { AllPairs IsLeftOf (near.old.items ++ behind_of stacks.old) }
    ensures before { OnOk result (before_of stacks.new ≡ before_of stacks.old) }
    ensures whole { OnOk result
        (near.new.items ++ behind_of stacks.new ≡ near.old.items ++ behind_of stacks.old) }
    ensures near { All (λ r. r.x1 ≤ℤ column) near.old.items →
        OnOk result (All (λ r. r.x1 ≤ℤ column) near.new.items) }
    ensures behind { OnOk result (All (λ r. column <ℤ r.x1) (behind_of stacks.new)) }
{
    'opened: loop {
        take_from(&mut stacks.right, near, column)?;
        if !needs_block(stacks) {
            return Ok(());
        }
        open_next(stacks);
    }
}

/// Whether all stacks behind the place stand in blocks.
fn needs_block(stacks: &Stacks) -> bool
    ensures right { result ≡ true → stacks.now.right.items ≡ [] }
    ensures blocks { result ≡ true → 0 < length stacks.now.far_right.items }
    ensures none { result ≡ false →
        (0 < length stacks.now.right.items) ⊎ (stacks.now.far_right.items ≡ []) }
{
    stacks.right.is_empty() && !stacks.far_right.is_empty()
}

/// Takes the nearest block behind the place out of its list.
fn open_next(stacks: &mut Stacks)
    requires { stacks.old.right.items ≡ [] }
    ensures before { before_of stacks.new ≡ before_of stacks.old }
    ensures behind { behind_of stacks.new ≡ behind_of stacks.old }
    ensures fewer { 0 < length stacks.old.far_right.items →
        length stacks.new.far_right.items < length stacks.old.far_right.items }
{
    match stacks.far_right.pop() {
        None => (),
        Some(block) => {
            stacks.right = block;
            stacks.right.reverse();
        }
    }
}

/// Takes out those, of stacks that are given from the right, that do not begin right of a column.
fn take_from(right: &mut Vec<Rect>, near: &mut Vec<Rect>, column: i64) -> Result<(), AllocError>
    requires { AllPairs IsLeftOf (reverse right.old.items) }
    ensures whole { OnOk result (near.new.items ++ reverse right.new.items ≡
        near.old.items ++ reverse right.old.items) }
    ensures near { All (λ r. r.x1 ≤ℤ column) near.old.items →
        OnOk result (All (λ r. r.x1 ≤ℤ column) near.new.items) }
    ensures right { OnOk result (All (λ r. column <ℤ r.x1) (reverse right.new.items)) }
{
    let count = first_not_right(right.as_slice(), column);
    move_back(right, near, count)?;
    Ok(())
}

/// The place of the first stack that does not end left of a column.
fn first_not_left(held: &[Rect], column: i64) -> usize
    requires { AllPairs IsLeftOf held.now }
    ensures within { result ≤ length held.now }
    ensures place { IsPartitionPoint (λ r. r.x2 <ℤ column) (λ r. column ≤ℤ r.x2) held.now result }
{
    held.partition_point(|r| r.x2 < column)
}

/// How many stacks, from the right, do not end left of a column.
fn first_left(stacks: &[Rect], column: i64) -> usize
    requires { AllPairs IsLeftOf (reverse stacks.now) }
    ensures within { result ≤ length stacks.now }
    ensures place { IsPartitionPoint (λ r. column ≤ℤ r.x2) (λ r. r.x2 <ℤ column) stacks.now result }
{
    stacks.partition_point(|r| column <= r.x2)
}

/// How many stacks, from the right, begin right of a column.
fn first_not_right(stacks: &[Rect], column: i64) -> usize
    requires { AllPairs IsLeftOf (reverse stacks.now) }
    ensures within { result ≤ length stacks.now }
    ensures place { IsPartitionPoint (λ r. column <ℤ r.x1) (λ r. r.x1 ≤ℤ column) stacks.now result }
{
    stacks.partition_point(|r| column < r.x1)
}
