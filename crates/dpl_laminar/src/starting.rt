//! What a family of single members is made of.

ghost use Rattle.std.specs.Prelude.{◌≡◌, ℕ, ◌*◌, ◌<◌, ◌≤◌, nat_lt, false, [], ◌∷◌, length, slice_index, slice_index_or, replicate, IfOk};
ghost use Rattle.dpl_laminar.specs.declared.TheConstants.{MOST_MEMBERS};

use super::members::Members;
use std::alloc::{AllocError, Global};

/// The same item so often.
pub fn filled<T: Copy + Drop>(alloc: Global, item: T, count: usize) -> Result<Vec<T>, AllocError>
    ensures { IfOk result (λ list. list.items ≡ replicate count item) }
{
    let mut list = Vec::new(alloc);
    for _ in 0..count {
        list.push(item)?;
    }
    Ok(list)
}

/// The numbers below a count, in order.
pub fn ascending(alloc: Global, count: usize) -> Result<Vec<u32>, AllocError>
    requires { count ≤ MOST_MEMBERS }
    ensures length { IfOk result (λ list. length list.items ≡ count) }
    ensures each { IfOk result (λ list. (k : ℕ) → k < count → slice_index list.items k ≡ k) }
{
    let mut list = Vec::new(alloc);
    for i in 0..count {
        list.push(i as u32)?;
    }
    Ok(list)
}

/// True at the first half of the places.
pub fn first_half(alloc: Global, count: usize) -> Result<Vec<bool>, AllocError>
    requires { count ≤ MOST_MEMBERS }
    ensures length { IfOk result (λ list. length list.items ≡ 2 * count) }
    ensures each { IfOk result (λ list. (k : ℕ) → k < 2 * count →
        slice_index_or list.items k false ≡ nat_lt k count) }
{
    let mut list = Vec::new(alloc);
    for i in 0..2 * count {
        list.push(i < count)?;
    }
    Ok(list)
}

/// A set at each place: single members, and as many that hold nothing.
pub fn single_rows(alloc: Global, size: usize) -> Result<Vec<Members>, AllocError>
    requires { size ≤ MOST_MEMBERS }
    ensures length { IfOk result (λ rows. length rows.items ≡ 2 * size) }
    ensures singles { IfOk result (λ rows.
        (i : ℕ) → i < size → slice_index_or rows.items i [] ≡ i ∷ []) }
    ensures others { IfOk result (λ rows.
        (i : ℕ) → size ≤ i → slice_index_or rows.items i [] ≡ []) }
{
    let mut rows = Vec::new(alloc);
    for i in 0..2 * size {
        rows.push(first_row(alloc, i, size)?)?;
    }
    Ok(rows)
}

/// What the set with this number holds at first.
fn first_row(alloc: Global, set: usize, size: usize) -> Result<Members, AllocError>
    requires { size ≤ MOST_MEMBERS }
    ensures single { IfOk result (λ row. set < size → row ≡ set ∷ []) }
    ensures none { IfOk result (λ row. size ≤ set → row ≡ []) }
{
    if set < size {
        Members::single(alloc, set as u32)
    } else {
        Ok(Members::none(alloc))
    }
}
