// Sides of a polygon that cover the same rows of a column cancel in pairs.
ghost use Rattle.std.specs.Prelude.{◌≡◌, ℤ, ◌%◌, AllPairs, IfOk, OnOk, IsPermutation};
ghost use Rattle.dpl_tiles.specs.Sides.{standing};
ghost use Rattle.dpl_tiles.specs.Ends.{AddsEnds, ArePaired, StandsFirst, standing_ends};

use crate::columns::greater;
use crate::end::End;
use crate::side::Side;
use std::alloc::{AllocError, Global};

/// Sides between which the same cells lie, no two of them in one row of a column: from each end in a column to the next.
/// It takes about n log n steps for n sides.
pub fn cancelled(alloc: Global, sides: &[Side]) -> Result<Vec<Side>, AllocError>
    ensures { IfOk result (λ v. (x y : ℤ) → standing x y v.items % 2 ≡ standing x y sides.now % 2) }
{
    let mut ends = ends_of(alloc, sides)?;
    sort(&mut ends);
    sides_between(alloc, ends.as_slice())
}

/// Both ends of each side.
fn ends_of(alloc: Global, sides: &[Side]) -> Result<Vec<End>, AllocError>
    ensures same { IfOk result (λ v. (x y : ℤ) →
        standing_ends x y v.items % 2 ≡ standing x y sides.now % 2) }
    ensures paired { IfOk result (λ v. ArePaired v.items) }
{
    let mut ends = Vec::with_capacity(alloc, sides.len().saturating_mul(2))?;
    for side in sides {
        push_ends(&mut ends, side)?;
    }
    Ok(ends)
}

fn push_ends(ends: &mut Vec<End>, side: &Side) -> Result<(), AllocError>
    ensures { OnOk result (AddsEnds side.now ends.old.items ends.new.items) }
{
    ends.push(end_at(side, side.low))?;
    ends.push(end_at(side, greater(side.low, side.high)))?;
    Ok(())
}

fn end_at(side: &Side, row: i64) -> End
    ensures column { result.column ≡ side.now.column }
    ensures row { result.row ≡ row }
{
    End {
        column: side.column,
        row,
    }
}

fn sort(ends: &mut Vec<End>)
    ensures same { IsPermutation ends.old.items ends.new.items }
    ensures sorted { AllPairs StandsFirst ends.new.items }
{
    ends.sort_unstable_by_key(|e| (e.column, e.row));
}

/// The sides from each end in a column to the next, by pairs.
fn sides_between(alloc: Global, ends: &[End]) -> Result<Vec<Side>, AllocError>
    requires sorted { AllPairs StandsFirst ends.now }
    requires paired { ArePaired ends.now }
    ensures { IfOk result (λ v. (x y : ℤ) →
        standing x y v.items % 2 ≡ standing_ends x y ends.now % 2) }
{
    let mut sides = Vec::with_capacity(alloc, ends.len() / 2)?;
    let mut rest = ends;
    while let [first, second, others @ ..] = rest {
        if first.row < second.row {
            sides.push(side_up_to(first, second.row))?;
        }
        rest = others;
    }
    Ok(sides)
}

fn side_up_to(end: &End, row: i64) -> Side
    ensures column { result.column ≡ end.now.column }
    ensures low { result.low ≡ end.now.row }
    ensures high { result.high ≡ row }
{
    Side {
        column: end.column,
        low: end.row,
        high: row,
    }
}
