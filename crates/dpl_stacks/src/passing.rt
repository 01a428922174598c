// Blocks of stacks passed from one side of the place to the other.
ghost use Rattle.std.specs.Prelude.{◌≡◌, true, false, ℤ, ◌<ℤ◌, ◌≤ℤ◌, ◌<◌, ◌++◌, length, All, AllPairs, Any, IfOk, OnOk, reverse, []};
ghost use Rattle.dpl_stacks.specs.Stacks.{IsLeftOf, joined, stacks_of};

use crate::moving::move_back;
use crate::stacks::Stacks;
use dpl_cell::Rect;
use std::alloc::{AllocError, Global};
use std::mem::replace;

/// How many stacks each block has that a long list is cut into. A block that grows is cut again
/// only beyond twice as many, so that blocks stay few.
const BLOCK: usize = 128;

/// Between the place and a column that lie farther apart than this many stacks, blocks pass.
const REACH: usize = 512;

/// Passes blocks to the other side, until those on the left end left of a column and those on the
/// right do not. Where they stand so already, and the column is not far, nothing moves.
pub fn approach(alloc: Global, stacks: &mut Stacks, column: i64) -> Result<(), AllocError>
    requires { AllPairs IsLeftOf (stacks_of stacks.old) }
    ensures whole { OnOk result (stacks_of stacks.new ≡ stacks_of stacks.old) }
    ensures left { OnOk result (All (λ r. r.x2 <ℤ column) (joined stacks.new.far_left.items)) }
    ensures right { OnOk result (All (λ r. column ≤ℤ r.x2)
        (joined (reverse stacks.new.far_right.items))) }
{
    if is_near(stacks, column) {
        return Ok(());
    }
    close(alloc, stacks)?;
    pass_many(&mut stacks.far_left, &mut stacks.far_right, column)?;
    pass_right(&mut stacks.far_left, &mut stacks.far_right, column)?;
    stacks.left = pass_left(alloc, &mut stacks.far_left, &mut stacks.far_right, column)?;
    Ok(())
}

/// Whether a column is not far from the place, and no block has to pass.
fn is_near(stacks: &Stacks, column: i64) -> bool
    requires { AllPairs IsLeftOf (stacks_of stacks.now) }
    ensures left { result ≡ true → All (λ r. r.x2 <ℤ column) (joined stacks.now.far_left.items) }
    ensures right { result ≡ true →
        All (λ r. column ≤ℤ r.x2) (joined (reverse stacks.now.far_right.items)) }
{
    let left = are_left(stacks.far_left.as_slice(), column);
    let right = are_right(stacks.far_right.as_slice(), column);
    left && right && is_in_reach(stacks.left.as_slice(), stacks.right.as_slice(), column)
}

/// Whether few of the stacks that stand in no block lie between the place and a column. Those on
/// the right are given from the right.
fn is_in_reach(left: &[Rect], right: &[Rect], column: i64) -> bool {
    (left.len() <= REACH || left[left.len() - REACH].x2 < column)
        && (right.len() <= REACH || column <= right[right.len() - REACH].x2)
}

/// Whether the last block on the left has stacks and ends left of a column, or there is none.
fn are_left(blocks: &[Vec<Rect>], column: i64) -> bool
    requires { AllPairs IsLeftOf (joined blocks.now) }
    ensures all { result ≡ true → All (λ r. r.x2 <ℤ column) (joined blocks.now) }
    ensures some { result ≡ false → 0 < length blocks.now }
{
    match blocks.last() {
        None => true,
        Some(block) => !block.is_empty() && is_left(block.as_slice(), column),
    }
}

/// Whether the nearest block on the right begins with a stack that does not end left of a column,
/// or there is none.
fn are_right(blocks: &[Vec<Rect>], column: i64) -> bool
    requires { AllPairs IsLeftOf (joined (reverse blocks.now)) }
    ensures { result ≡ true → All (λ r. column ≤ℤ r.x2) (joined (reverse blocks.now)) }
{
    match blocks.last() {
        None => true,
        Some(block) => begins_right(block.as_slice(), column),
    }
}

/// Whether there are stacks, and the first does not end left of a column.
fn begins_right(stacks: &[Rect], column: i64) -> bool
    requires { AllPairs IsLeftOf stacks.now }
    ensures all { result ≡ true → All (λ r. column ≤ℤ r.x2) stacks.now }
    ensures some { result ≡ true → 0 < length stacks.now }
{
    match stacks.first() {
        None => false,
        Some(r) => column <= r.x2,
    }
}

/// Whether all stacks end left of a column.
fn is_left(stacks: &[Rect], column: i64) -> bool
    requires { AllPairs IsLeftOf stacks.now }
    ensures all { result ≡ true → All (λ r. r.x2 <ℤ column) stacks.now }
    ensures some { result ≡ false → Any (λ r. column ≤ℤ r.x2) stacks.now }
{
    match stacks.last() {
        None => true,
        Some(r) => r.x2 < column,
    }
}

/// Puts all stacks that stand in no block into blocks on the left.
fn close(alloc: Global, stacks: &mut Stacks) -> Result<(), AllocError>
    ensures whole { OnOk result (stacks_of stacks.new ≡ stacks_of stacks.old) }
    ensures left { OnOk result (stacks.new.left.items ≡ []) }
    ensures right { OnOk result (stacks.new.right.items ≡ []) }
{
    move_back(&mut stacks.right, &mut stacks.left, 0)?;
    let all = replace(&mut stacks.left, Vec::new(alloc));
    push_blocks(alloc, &mut stacks.far_left, all)?;
    Ok(())
}

/// Adds stacks as one block or, where they are many, as several.
fn push_blocks(
    alloc: Global,
    blocks: &mut Vec<Vec<Rect>>,
    stacks: Vec<Rect>,
) -> Result<(), AllocError>
    ensures { OnOk result (joined blocks.new.items ≡ joined blocks.old.items ++ stacks.items) }
{
    if stacks.is_empty() {
        return Ok(());
    }
    if stacks.len() > 2 * BLOCK {
        push_pieces(alloc, blocks, stacks.as_slice())?;
        return Ok(());
    }
    blocks.push(stacks)?;
    Ok(())
}

/// Adds many stacks as several blocks.
fn push_pieces(
    alloc: Global,
    blocks: &mut Vec<Vec<Rect>>,
    stacks: &[Rect],
) -> Result<(), AllocError>
    ensures { OnOk result (joined blocks.new.items ≡ joined blocks.old.items ++ stacks.now) }
{
    let mut rest = stacks;
    'pieces: while rest.len() > 2 * BLOCK {
        let (piece, others) = rest.split_at(BLOCK);
        push_piece(alloc, blocks, piece)?;
        rest = others;
    }
    push_piece(alloc, blocks, rest)?;
    Ok(())
}

/// Adds a block of stacks.
fn push_piece(alloc: Global, blocks: &mut Vec<Vec<Rect>>, stacks: &[Rect]) -> Result<(), AllocError>
    ensures { OnOk result (joined blocks.new.items ≡ joined blocks.old.items ++ stacks.now) }
{
    let mut block = Vec::new(alloc);
    block.extend_from_slice(stacks)?;
    blocks.push(block)?;
    Ok(())
}

/// Passes as many blocks to either side as a search among their last stacks tells.
fn pass_many(
    left: &mut Vec<Vec<Rect>>,
    right: &mut Vec<Vec<Rect>>,
    column: i64,
) -> Result<(), AllocError>
    ensures { OnOk result (joined left.new.items ++ joined (reverse right.new.items) ≡
        joined left.old.items ++ joined (reverse right.old.items)) }
{
    let stay = left
        .as_slice()
        .partition_point(|block| ends_left(block.as_slice(), column));
    'back: while left.len() > stay {
        pass_block(left, right)?;
    }
    let stay = right
        .as_slice()
        .partition_point(|block| !ends_left(block.as_slice(), column));
    'on: while right.len() > stay {
        pass_back(left, right)?;
    }
    Ok(())
}

/// Whether a block has stacks, and the last of them ends left of a column.
fn ends_left(block: &[Rect], column: i64) -> bool {
    match block.last() {
        None => false,
        Some(last) => last.x2 < column,
    }
}

/// Passes blocks to the right until all that stand on the left end left of a column.
fn pass_right(
    left: &mut Vec<Vec<Rect>>,
    right: &mut Vec<Vec<Rect>>,
    column: i64,
) -> Result<(), AllocError>
    requires { AllPairs IsLeftOf (joined left.old.items ++ joined (reverse right.old.items)) }
    ensures whole { OnOk result (joined left.new.items ++ joined (reverse right.new.items) ≡
        joined left.old.items ++ joined (reverse right.old.items)) }
    ensures left { OnOk result (All (λ r. r.x2 <ℤ column) (joined left.new.items)) }
{
    'passing: while !are_left(left.as_slice(), column) {
        pass_block(left, right)?;
    }
    Ok(())
}

/// Passes the last block on the left to the right.
fn pass_block(left: &mut Vec<Vec<Rect>>, right: &mut Vec<Vec<Rect>>) -> Result<(), AllocError>
    ensures whole { OnOk result (joined left.new.items ++ joined (reverse right.new.items) ≡
        joined left.old.items ++ joined (reverse right.old.items)) }
    ensures fewer { 0 < length left.old.items → length left.new.items < length left.old.items }
{
    match left.pop() {
        None => Ok(()),
        Some(block) => {
            right.push(block)?;
            Ok(())
        }
    }
}

/// Passes the nearest block on the right to the left.
fn pass_back(left: &mut Vec<Vec<Rect>>, right: &mut Vec<Vec<Rect>>) -> Result<(), AllocError>
    ensures whole { OnOk result (joined left.new.items ++ joined (reverse right.new.items) ≡
        joined left.old.items ++ joined (reverse right.old.items)) }
    ensures fewer { 0 < length right.old.items → length right.new.items < length right.old.items }
{
    match right.pop() {
        None => Ok(()),
        Some(block) => {
            left.push(block)?;
            Ok(())
        }
    }
}

/// Passes blocks to the left until the nearest one on the right does not end left of a column, and
/// takes that one out.
fn pass_left(
    alloc: Global,
    left: &mut Vec<Vec<Rect>>,
    right: &mut Vec<Vec<Rect>>,
    column: i64,
) -> Result<Vec<Rect>, AllocError>
    requires ordered { AllPairs IsLeftOf
        (joined left.old.items ++ joined (reverse right.old.items)) }
    requires left { All (λ r. r.x2 <ℤ column) (joined left.old.items) }
    ensures whole { IfOk result (λ block.
        joined left.new.items ++ (block.items ++ joined (reverse right.new.items)) ≡
        joined left.old.items ++ joined (reverse right.old.items)) }
    ensures left { OnOk result (All (λ r. r.x2 <ℤ column) (joined left.new.items)) }
    ensures right { OnOk result (All (λ r. column ≤ℤ r.x2) (joined (reverse right.new.items))) }
{
    'passing: loop {
        match right.pop() {
            None => return Ok(Vec::new(alloc)),
            Some(block) => {
                if !is_left(block.as_slice(), column) {
                    return Ok(block);
                }
                left.push(block)?;
            }
        }
    }
}
