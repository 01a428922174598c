// The columns at which boxes end.
ghost use Rattle.std.specs.Prelude.{◌≡◌, ◌⊎◌, true, ◌<◌, ◌≤◌, ℕ, ◌<ℤ◌, ◌≤ℤ◌, length, All, IfOk, OnOk};
ghost use Rattle.dpl_cell.specs.Ranges.{IsInRange};
ghost use Rattle.dpl_cover.specs.Columns.{AddsEnds, AreColumns, AreRising, HasEnds, column_at};

use dpl_cell::Rect;
use std::alloc::{AllocError, Global};

/// The columns at which boxes end, from the left, each once.
pub fn columns_of(alloc: Global, boxes: &[Rect]) -> Result<Vec<i64>, AllocError>
    ensures { IfOk result (λ v. AreColumns boxes.now v.items) }
{
    let mut ends = ends_of(alloc, boxes)?;
    ends.sort_unstable();
    ends.dedup();
    Ok(ends)
}

fn ends_of(alloc: Global, boxes: &[Rect]) -> Result<Vec<i64>, AllocError>
    ensures has { IfOk result (λ v. All (HasEnds v.items) boxes.now) }
    ensures range { IfOk result (λ v. All IsInRange v.items) }
{
    let mut ends = Vec::with_capacity(alloc, boxes.len().saturating_mul(2))?;
    for r in boxes {
        push_ends(&mut ends, r)?;
    }
    Ok(ends)
}

fn push_ends(ends: &mut Vec<i64>, r: &Rect) -> Result<(), AllocError>
    ensures { OnOk result (AddsEnds r.now ends.old.items ends.new.items) }
{
    ends.push(r.x1)?;
    ends.push(r.x2)?;
    Ok(())
}

/// The place of the first column that is not left of one.
pub fn place_from(columns: &[i64], x: i64) -> usize
    requires { AreRising columns.now }
    ensures within { result ≤ length columns.now }
    ensures left { (k : ℕ) → k < result → column_at columns.now k <ℤ x }
    ensures others { (k : ℕ) → result ≤ k → k < length columns.now → x ≤ℤ column_at columns.now k }
{
    columns.partition_point(|c| *c < x)
}

/// Whether a place is that of the first column that is not left of one. It need not be a place of a column.
fn is_place_from(columns: &[i64], x: i64, place: usize) -> bool
    requires { AreRising columns.now }
    ensures within { result ≡ true → place ≤ length columns.now }
    ensures left { result ≡ true → (k : ℕ) → k < place → column_at columns.now k <ℤ x }
    ensures others { result ≡ true → (k : ℕ) → place ≤ k → k < length columns.now →
        x ≤ℤ column_at columns.now k }
{
    if place == 0 {
        return false;
    }
    if place >= columns.len() {
        return false;
    }
    if x <= columns[place - 1] {
        return false;
    }
    x <= columns[place]
}

/// The place of the first column that is not left of one, which may be a place that is known.
pub fn place_near(columns: &[i64], x: i64, near: usize) -> usize
    requires { AreRising columns.now }
    ensures within { result ≤ length columns.now }
    ensures left { (k : ℕ) → k < result → column_at columns.now k <ℤ x }
    ensures others { (k : ℕ) → result ≤ k → k < length columns.now → x ≤ℤ column_at columns.now k }
{
    if is_place_from(columns, x, near) {
        return near;
    }
    place_from(columns, x)
}

/// The place of the first column that is not left of the right side of a box, from that for its left side on. Columns
/// differ, so no more of them than the box is wide are looked at.
pub fn place_after(columns: &[i64], from: usize, r: &Rect) -> usize
    requires columns { AreRising columns.now }
    requires within { from ≤ length columns.now }
    requires left { (k : ℕ) → k < from → column_at columns.now k <ℤ r.now.x1 }
    requires others { (k : ℕ) → from ≤ k → k < length columns.now → r.now.x1 ≤ℤ column_at columns.now k }
    ensures within { result ≤ length columns.now }
    ensures left { (k : ℕ) → k < result → column_at columns.now k <ℤ r.now.x2 }
    ensures others { (k : ℕ) → result ≤ k → k < length columns.now → r.now.x2 ≤ℤ column_at columns.now k }
{
    let next = from.wrapping_add(1);
    if is_place_from(columns, r.x2, next) {
        return next;
    }
    let width = (r.x2 - r.x1) as usize;
    let end = from + width.min(columns.len() - from);
    from + place_from(&columns[from..end], r.x2)
}

/// The place of the last column that is not right of one; the first where there is none.
pub fn last_place(columns: &[i64], x: i64) -> usize
    requires { AreRising columns.now }
    ensures { (result ≡ 0) ⊎ ((result < length columns.now) × (column_at columns.now result ≤ℤ x)) }
{
    columns.partition_point(|c| *c <= x).saturating_sub(1)
}
