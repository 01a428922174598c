// The columns that boxes cover in the row that a sweep has reached.
ghost use Rattle.std.specs.Prelude.{◌≡◌, ◌≤◌, ◌<◌, ◌≤ℤ◌, ◌^◌, ℕ, ℤ, ◌++◌, [], List};
ghost use Rattle.std.specs.Prelude.{slice_index_or, length, take, IsPermutation, IfOk};
ghost use Rattle.dpl_cell.specs.declared.rect.Rect.{Rect};
ghost use Rattle.dpl_list.specs.Order.{Ascends};
ghost use Rattle.dpl_cover.specs.Columns.{AreRising};
ghost use Rattle.dpl_cover.specs.Counts.{AreCounts, AreSmall, IsUnit};
ghost use Rattle.dpl_cover.specs.Tallies.{IsCountedMore, AreTallied};
ghost use Rattle.dpl_cover.specs.Covers.{IsCounted, IsPassed, side_of};

use crate::blocks::{Block, block_of};
use crate::columns::{columns_of, place_after, place_near};
use crate::counts::{change, loosen};
use crate::parts::parts_in;
use dpl_cell::{Rect, Stretch};
use std::alloc::{AllocError, Global};

/// More boxes than any memory holds.
const MOST_BOXES: usize = 1 << 40;

/// Boxes from the lowest one up and from the lowest upper side up, and how often they have the places between the columns
/// at which they end, in the row that was reached.
#[derive(Drop)]
pub struct Cover {
    pub row: i64,
    pub begins: Vec<Rect>,
    pub ends: Vec<Rect>,
    pub began: usize,
    pub ended: usize,
    pub columns: Vec<i64>,
    pub each: Vec<i64>,
    pub blocks: Vec<Block>,
}

/// Adds one or minus one to the counts of the places that a box has, and gives the place at which a box in the same row
/// may begin next. Where this one begins may be known.
fn count_box(
    columns: &[i64],
    each: &mut [i64],
    blocks: &mut [Block],
    r: &Rect,
    by: i64,
    near: usize,
) -> usize
    requires columns { AreRising columns.now }
    requires long { length each.old ≡ length columns.now }
    requires one { IsUnit by }
    requires counts { AreCounts each.old blocks.old }
    requires small { AreSmall (2 ^ 58) each.old blocks.old }
    ensures { IsCountedMore columns.now r.now by each.old blocks.old each.new blocks.new }
{
    let from = place_near(columns, r.x1, near);
    let to = place_after(columns, from, r);
    let next = to.wrapping_add(1);
    if from >= to {
        return next;
    }
    change(each, blocks, from, to, by);
    next
}

/// The same for all boxes of a list.
fn count_all(columns: &[i64], each: &mut [i64], blocks: &mut [Block], boxes: &[Rect], by: i64)
    requires columns { AreRising columns.now }
    requires long { length each.old ≡ length columns.now }
    requires one { IsUnit by }
    requires counts { AreCounts each.old blocks.old }
    requires small { AreSmall (2 ^ 57) each.old blocks.old }
    requires few { length boxes.now ≤ 2 ^ 41 }
    ensures { AreTallied columns.now by boxes.now each.old blocks.old each.new blocks.new }
{
    let mut near = 0;
    for r in boxes {
        near = count_box(columns, each, blocks, r, by, near);
    }
}

/// Counts the boxes that begin, and no longer those that end.
fn count_both(
    columns: &[i64],
    each: &mut [i64],
    blocks: &mut [Block],
    begun: &[Rect],
    closed: &[Rect],
)
    requires columns { AreRising columns.now }
    requires long { length each.old ≡ length columns.now }
    requires counts { AreCounts each.old blocks.old }
    requires small { AreSmall (2 ^ 56) each.old blocks.old }
    requires few { length begun.now ≤ 2 ^ 41 }
    requires few_closed { length closed.now ≤ 2 ^ 41 }
    ensures { (up down : List Rect) → IsCounted columns.now each.old blocks.old up down →
        IsCounted columns.now each.new blocks.new (up ++ begun.now) (down ++ closed.now) }
{
    count_all(columns, each, blocks, begun, 1);
    count_all(columns, each, blocks, closed, -1);
}

/// The row of the lower side of a box, or of its upper side.
fn side_of(r: &Rect, is_upper: bool) -> i64
    ensures { result ≡ side_of is_upper r.now }
{
    if is_upper { r.y2 } else { r.y1 }
}

/// How many boxes begin, or end, at a row or below it, from a number on of which that is known.
fn passed_at(boxes: &[Rect], before: usize, row: i64, is_upper: bool) -> usize
    requires order { Ascends (side_of is_upper) boxes.now }
    requires within { before ≤ length boxes.now }
    requires known { (k : ℕ) (d : Rect) → k < before → side_of is_upper (slice_index_or boxes.now k d) ≤ℤ row }
    ensures order { before ≤ result }
    ensures passed { IsPassed (side_of is_upper) row boxes.now result }
{
    for n in before..boxes.len() {
        if row < side_of(&boxes[n], is_upper) {
            return n;
        }
    }
    boxes.len()
}

/// The boxes from one place on up to another.
fn between(boxes: &[Rect], from: usize, to: usize) -> &[Rect]
    requires order { from ≤ to }
    requires within { to ≤ length boxes.now }
    ensures { take to boxes.now ≡ take from boxes.now ++ result.now }
{
    &boxes[from..to]
}

/// No counts yet, for so many places.
fn blank(alloc: Global, places: usize) -> Result<(Vec<i64>, Vec<Block>), AllocError>
    ensures { IfOk result (λ v. (columns : List ℤ) → length columns ≡ places →
        IsCounted columns v.0.items v.1.items [] []) }
{
    let each = vec![in alloc; 0; places]?;
    let block = Block {
        whole: 0,
        low: 0,
        high: 0,
    };
    let mut blocks = vec![in alloc; block; block_of(places) + 1]?;
    loosen(blocks.as_mut_slice());
    Ok((each, blocks))
}

fn by_begin(alloc: Global, boxes: &[Rect]) -> Result<Vec<Rect>, AllocError>
    ensures same { IfOk result (λ v. IsPermutation boxes.now v.items) }
    ensures order { IfOk result (λ v. Ascends (λ r. r.y1) v.items) }
{
    let mut sorted = Vec::from_slice(alloc, boxes)?;
    sorted.sort_unstable_by_key(|r| r.y1);
    Ok(sorted)
}

fn by_end(alloc: Global, boxes: &[Rect]) -> Result<Vec<Rect>, AllocError>
    ensures same { IfOk result (λ v. IsPermutation boxes.now v.items) }
    ensures order { IfOk result (λ v. Ascends (λ r. r.y2) v.items) }
{
    let mut sorted = Vec::from_slice(alloc, boxes)?;
    sorted.sort_unstable_by_key(|r| r.y2);
    Ok(sorted)
}

impl Cover {
    ghost use Rattle.std.specs.Prelude.{◌≡◌, ℤ, true, ◌≤ℤ◌, ◌<ℤ◌, IsPermutation, IfOk};
    ghost use Rattle.dpl_cell.specs.Stretches.{is_in_stretches};
    ghost use Rattle.dpl_cover.specs.Covers.{IsCover, is_covered, least_row};

    /// A cover of these boxes below all of them. It takes about n log n steps for n boxes. `AllocError` where memory
    /// runs out, and for more than 2^40 boxes, which no memory holds.
    pub fn new(alloc: Global, boxes: &[Rect]) -> Result<Cover, AllocError>
        ensures cover { IfOk result IsCover }
        ensures same { IfOk result (λ c. IsPermutation boxes.now c.begins.items) }
        ensures low { IfOk result (λ c. c.row ≡ least_row) }
    {
        if boxes.len() > MOST_BOXES {
            return Err(AllocError);
        }
        let begins = by_begin(alloc, boxes)?;
        let ends = by_end(alloc, begins.as_slice())?;
        let columns = columns_of(alloc, begins.as_slice())?;
        let (each, blocks) = blank(alloc, columns.len())?;
        Ok(Cover {
            row: i64::MIN,
            begins,
            ends,
            began: 0,
            ended: 0,
            columns,
            each,
            blocks,
        })
    }

    /// Goes up to a row.
    pub fn rise(&mut self, row: i64)
        requires cover { IsCover self.old }
        requires up { self.old.row ≤ℤ row }
        ensures cover { IsCover self.new }
        ensures row { self.new.row ≡ row }
        ensures same { self.new.begins.items ≡ self.old.begins.items }
    {
        let began = passed_at(self.begins.as_slice(), self.began, row, false);
        let ended = passed_at(self.ends.as_slice(), self.ended, row, true);
        let begun = between(self.begins.as_slice(), self.began, began);
        let closed = between(self.ends.as_slice(), self.ended, ended);
        count_both(
            self.columns.as_slice(),
            self.each.as_mut_slice(),
            self.blocks.as_mut_slice(),
            begun,
            closed,
        );
        self.row = row;
        self.began = began;
        self.ended = ended;
    }

    /// Stretches of columns that boxes cover in the row that was reached: all that are covered from a column on up to
    /// another, which is left out, and perhaps others beside them.
    pub fn stretches(&self, alloc: Global, from: i64, to: i64) -> Result<Vec<Stretch>, AllocError>
        requires { IsCover self.now }
        ensures sound { IfOk result (λ v. (x : ℤ) → is_in_stretches v.items x ≡ true →
            is_covered self.now x ≡ true) }
        ensures full { IfOk result (λ v. (x : ℤ) → from ≤ℤ x → x <ℤ to →
            is_covered self.now x ≡ true → is_in_stretches v.items x ≡ true) }
    {
        let parts = parts_in(
            alloc,
            self.columns.as_slice(),
            self.each.as_slice(),
            self.blocks.as_slice(),
            from,
            to,
        )?;
        Ok(parts)
    }
}
