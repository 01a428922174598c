// Rows that change within one stack.
ghost use Rattle.std.specs.Prelude.{◌≡◌, [], true, ℤ, ◌≤ℤ◌, ◌||◌, Any, IfOk, IfSome, OnOk};
ghost use Rattle.dpl_cell.specs.Cells.{IsWithin};
ghost use Rattle.dpl_cell.specs.Places.{corners_of};
ghost use Rattle.dpl_cell.specs.Stretches.{is_in_stretches};
ghost use Rattle.dpl_tiles.specs.Bands.{HasColumns, IsBand, cells_in};
ghost use Rattle.dpl_tiles.specs.Windows.{IsOutside, has_columns, is_shared};

use crate::band::Band;
use crate::columns::{Columns, greater, lesser};
use dpl_cell::{Rect, Stretch};
use std::alloc::{AllocError, Global};

/// The columns of a stack, if the first one holds all columns of a window.
pub fn stack_across(near: &[Rect], window: &Columns) -> Option<Stretch>
    ensures { IfSome result (λ s. (s.from ≤ℤ window.now.left) × (window.now.right ≤ℤ s.to) ×
        Any (HasColumns s.from s.to) near.now) }
{
    match near.first() {
        None => None,
        Some(r) => {
            if has_columns(r, window) {
                Some(Stretch::new(r.x1, r.x2))
            } else {
                None
            }
        }
    }
}

/// Whether a rectangle has these columns.
fn has_columns(r: &Rect, columns: &Columns) -> bool
    ensures { result ≡ has_columns (corners_of r.now) columns.now.left columns.now.right }
{
    r.x1 <= columns.left && columns.right <= r.x2
}

/// The cells of a band's lowest row in the columns of a stack, where all that stand outside some
/// columns are cells. There are no polygons.
pub fn parts_beside(
    alloc: Global,
    band: &Band<'_>,
    change: &Columns,
    stack: &Stretch,
) -> Result<Vec<Stretch>, AllocError>
    requires band { IsBand band.now }
    requires boxes { band.now.finder.now.sides.items ≡ [] }
    requires same { (x : ℤ) → IsWithin stack.now.from stack.now.to x →
        IsOutside change.now.left change.now.right x → cells_in band.now x band.now.low ≡ true }
    ensures sound { IfOk result (λ v. (x : ℤ) → is_in_stretches v.items x ≡ true →
        cells_in band.now x band.now.low ≡ true) }
    ensures full { IfOk result (λ v. (x : ℤ) → IsWithin stack.now.from stack.now.to x →
        cells_in band.now x band.now.low ≡ true → is_in_stretches v.items x ≡ true) }
{
    let finder = band.finder;
    let mut parts = finder.cover.stretches(alloc, change.left, change.right)?;
    push_between(&mut parts, stack, stack.from, change.left)?;
    push_between(&mut parts, stack, change.right, stack.to)?;
    Ok(parts)
}

/// Adds the columns of a stack from one on up to another, which is left out.
fn push_between(
    parts: &mut Vec<Stretch>,
    stack: &Stretch,
    from: i64,
    to: i64,
) -> Result<(), AllocError>
    ensures { OnOk result ((x : ℤ) → is_in_stretches parts.new.items x ≡
        (is_in_stretches parts.old.items x || is_shared stack.now from to x)) }
{
    let from = greater(stack.from, from);
    let to = lesser(stack.to, to);
    if from < to {
        parts.push(Stretch::new(from, to))?;
    }
    Ok(())
}
