// Stretches of columns whose places are counted.
ghost use Rattle.std.specs.Prelude.{◌≡◌, ℕ, ◌+◌, ◌<◌, ◌≤◌, ◌^◌, ℤ, true, false, ◌≤ℤ◌, ◌<ℤ◌, length, All, IfOk, OnOk, ◌||◌};
ghost use Rattle.dpl_cell.specs.Layers.{is_within};
ghost use Rattle.dpl_cell.specs.Ranges.{IsInRange};
ghost use Rattle.dpl_cell.specs.Stretches.{is_in_stretches};
ghost use Rattle.dpl_cover.specs.Columns.{AreRising, IsAt, column_at};
ghost use Rattle.dpl_cover.specs.Counts.{AreCounts, AreSmall, is_counted};
ghost use Rattle.dpl_cover.specs.Parts.{HasCounted};

use crate::blocks::Block;
use crate::columns::last_place;
use crate::counts::{alike_from, full_from};
use dpl_cell::Stretch;
use std::alloc::{AllocError, Global};

/// Stretches of columns whose places are counted: all that are from a column on up to another, which is left out, and
/// perhaps others beside them. The last place is not counted.
pub fn parts_in(
    alloc: Global,
    columns: &[i64],
    each: &[i64],
    blocks: &[Block],
    from: i64,
    to: i64,
) -> Result<Vec<Stretch>, AllocError>
    requires columns { AreRising columns.now }
    requires range { All IsInRange columns.now }
    requires long { length each.now ≡ length columns.now }
    requires counts { AreCounts each.now blocks.now }
    requires small { AreSmall (2 ^ 60) each.now blocks.now }
    requires last { (k : ℕ) → k + 1 ≡ length columns.now → is_counted each.now blocks.now k ≡ false }
    ensures sound { IfOk result (λ v. (x : ℤ) → is_in_stretches v.items x ≡ true →
        HasCounted columns.now each.now blocks.now x) }
    ensures full { IfOk result (λ v. (x : ℤ) (k : ℕ) → from ≤ℤ x → x <ℤ to → IsAt columns.now k x →
        is_counted each.now blocks.now k ≡ true → is_in_stretches v.items x ≡ true) }
{
    let mut parts = Vec::with_capacity(alloc, 8)?;
    let mut at = last_place(columns, from);
    while at < columns.len() && columns[at] < to {
        let alike = alike_from(each, blocks, at);
        if alike.counted {
            let end = full_from(columns, each, blocks, alike.to, to);
            push_part(&mut parts, columns, at, end)?;
            at = end;
        } else {
            at = alike.to;
        }
    }
    Ok(parts)
}

/// Adds the columns from one place on up to another.
fn push_part(
    parts: &mut Vec<Stretch>,
    columns: &[i64],
    from: usize,
    to: usize,
) -> Result<(), AllocError>
    requires columns { AreRising columns.now }
    requires range { All IsInRange columns.now }
    requires order { from < to }
    requires within { to < length columns.now }
    ensures { OnOk result ((x : ℤ) → is_in_stretches parts.new.items x ≡
        (is_in_stretches parts.old.items x
        || is_within (column_at columns.now from) (column_at columns.now to) x)) }
{
    parts.push(Stretch::new(columns[from], columns[to]))?;
    Ok(())
}
