// Which components are turned over, so that the masks cover about the same area.
ghost use Rattle.std.specs.Prelude.{◌≡◌, ◌+◌, ◌*◌, ◌<◌, ◌≤◌, ◌^◌, ℕ, false, true, length, sum_by, All, slice_index_or, IfOk, IsPermutation};
ghost use Rattle.std.specs.List.{IsDistinct};
ghost use Rattle.dpl_balance.specs.Balance.{difference};
ghost use Rattle.dpl_balance.specs.Parts.{parts_below, have_one_number, cells_after, cells_by, IsWithinRoom, AreEven, lightens as does_lighten};

use crate::types::Areas;
use std::alloc::{AllocError as NoMemory, Global};

/// A component with the number of cells that its fragments have on each mask.
#[derive(Clone, Copy, Debug)]
pub struct Part {
    pub number: u32,
    pub on_a: u128,
    pub on_b: u128,
}

/// The components in the order of their numbers.
fn parts_of(alloc: Global, on_a: &[u128], on_b: &[u128]) -> Result<Vec<Part>, NoMemory>
    requires same { length on_b.now ≡ length on_a.now }
    requires few { length on_a.now < 2 ^ 32 }
    ensures { IfOk result (λ v. v.items ≡ parts_below on_a.now on_b.now (length on_a.now)) }
{
    let mut parts = Vec::new(alloc);
    for k in 0..on_a.len() {
        parts.push(Part {
            number: k as u32,
            on_a: on_a[k],
            on_b: on_b[k],
        })?;
    }
    Ok(parts)
}

/// The components in such an order that those whose sides differ most stand behind the others.
fn sorted_parts(alloc: Global, on_a: &[u128], on_b: &[u128]) -> Result<Vec<Part>, NoMemory>
    requires same { length on_b.now ≡ length on_a.now }
    requires few { length on_a.now < 2 ^ 32 }
    ensures { IfOk result (λ v.
        IsPermutation (parts_below on_a.now on_b.now (length on_a.now)) v.items) }
{
    let mut parts = parts_of(alloc, on_a, on_b)?;
    parts.sort_unstable_by_key(|part| part.on_a.abs_diff(part.on_b));
    Ok(parts)
}

/// Whether the heavier side of a component comes on the lighter mask by turning it over.
fn lightens(on: Areas, part: &Part) -> bool
    ensures { result ≡ does_lighten on part.now }
{
    (on.a <= on.b) != (part.on_b <= part.on_a)
}

fn with_part(on: Areas, part: &Part, turned: bool) -> Areas
    requires room_a { on.a ≤ 2 ^ 126 }
    requires room_b { on.b ≤ 2 ^ 126 }
    requires part { IsWithinRoom part.now }
    ensures a { result.a ≡ on.a + cells_after turned false part.now }
    ensures b { result.b ≡ on.b + cells_after turned true part.now }
{
    if turned {
        Areas {
            a: on.a + part.on_b,
            b: on.b + part.on_a,
        }
    } else {
        Areas {
            a: on.a + part.on_a,
            b: on.b + part.on_b,
        }
    }
}

/// Turns components over, the ones that differ most first, so that the heavier side of each comes on the mask that
/// is lighter so far.
fn settle(turned: &mut [bool], parts: &[Part])
    requires few { length parts.now < 2 ^ 32 }
    requires distinct { IsDistinct have_one_number parts.now }
    requires within { All (λ p. p.number < length turned.old) parts.now }
    requires room { All IsWithinRoom parts.now }
    ensures long { length turned.new ≡ length turned.old }
    ensures even { (most : ℕ) → All (λ p. difference p.on_a p.on_b ≤ most) parts.now
        → difference (sum_by (cells_by turned.new false) parts.now)
        (sum_by (cells_by turned.new true) parts.now) ≤ most }
{
    let mut on = Areas { a: 0, b: 0 };
    let mut rest = parts;
    'parts: while let Some((part, others)) = rest.split_last() {
        let turn = lightens(on, part);
        turned[part.number as usize] = turn;
        on = with_part(on, part, turn);
        rest = others;
    }
}

/// Which components are turned over, by their numbers, where these are the cells that they have on each mask.
pub fn turned(alloc: Global, on_a: &[u128], on_b: &[u128]) -> Result<Vec<bool>, NoMemory>
    requires same { length on_b.now ≡ length on_a.now }
    requires few { length on_a.now < 2 ^ 32 }
    requires room_a { (c : ℕ) → c < length on_a.now → slice_index_or on_a.now c 0 ≤ 2 ^ 94 }
    requires room_b { (c : ℕ) → c < length on_a.now → slice_index_or on_b.now c 0 ≤ 2 ^ 94 }
    ensures long { IfOk result (λ v. length v.items ≡ length on_a.now) }
    ensures even { IfOk result (λ v. AreEven on_a.now on_b.now v.items) }
{
    let parts = sorted_parts(alloc, on_a, on_b)?;
    let mut turned = vec![in alloc; false; on_a.len()]?;
    settle(turned.as_mut_slice(), parts.as_slice());
    Ok(turned)
}
