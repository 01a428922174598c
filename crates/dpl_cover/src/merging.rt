// Stretches put in order, and stretches that touch made one.
ghost use Rattle.std.specs.Prelude.{◌≡◌, ℤ, ◌≤ℤ◌, IfOk, ◌||◌, All};
ghost use Rattle.dpl_cell.specs.Layers.{is_within};
ghost use Rattle.dpl_cell.specs.Stretches.{AreSeparate, is_in_stretches};
ghost use Rattle.dpl_list.specs.Order.{Ascends};

use dpl_cell::Stretch;
use std::alloc::{AllocError, Global};

/// Puts stretches in the order of their first places. They hold the same places as before.
pub fn sort(parts: &mut Vec<Stretch>)
    ensures same { (x : ℤ) → is_in_stretches parts.new.items x ≡ is_in_stretches parts.old.items x }
    ensures sorted { Ascends (λ s. s.from) parts.new.items }
{
    parts.sort_unstable_by_key(|s| s.from);
}

/// The same places with a place between neighbours.
pub fn merged(alloc: Global, parts: &[Stretch]) -> Result<Vec<Stretch>, AllocError>
    requires { Ascends (λ s. s.from) parts.now }
    ensures separate { IfOk result (λ v. AreSeparate v.items) }
    ensures same { IfOk result (λ v. (x : ℤ) →
        is_in_stretches v.items x ≡ is_in_stretches parts.now x) }
{
    match parts.split_first() {
        None => Ok(Vec::new(alloc)),
        Some((first, rest)) => merged_with(alloc, *first, rest),
    }
}

fn merged_with(alloc: Global, first: Stretch, rest: &[Stretch]) -> Result<Vec<Stretch>, AllocError>
    requires first { All (λ s. first.from ≤ℤ s.from) rest.now }
    requires sorted { Ascends (λ s. s.from) rest.now }
    ensures separate { IfOk result (λ v. AreSeparate v.items) }
    ensures same { IfOk result (λ v. (x : ℤ) →
        is_in_stretches v.items x ≡ (is_within first.from first.to x
        || is_in_stretches rest.now x)) }
{
    let mut merged = Vec::new(alloc);
    let mut last = first;
    for part in rest {
        if part.from <= last.to {
            last = joined(&last, part);
        } else {
            merged.push(last)?;
            last = *part;
        }
    }
    merged.push(last)?;
    Ok(merged)
}

/// The places of two stretches, of which the second begins in the first or right behind it.
fn joined(a: &Stretch, b: &Stretch) -> Stretch
    requires above { a.now.from ≤ℤ b.now.from }
    requires touching { b.now.from ≤ℤ a.now.to }
    ensures from { result.from ≡ a.now.from }
    ensures same { (x : ℤ) → is_within result.from result.to x
        ≡ (is_within a.now.from a.now.to x || is_within b.now.from b.now.to x) }
{
    Stretch {
        from: a.from,
        to: a.to.max(b.to),
    }
}
