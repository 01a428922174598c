// What the components have on one mask.
ghost use Rattle.std.specs.Prelude.{◌≡◌, ◌+◌, ◌*◌, ◌<◌, ◌≤◌, ◌^◌, ◌==◌, ◌&&◌, if◌then◌else◌, ℕ, length, slice_index_or, All, IfOk};
ghost use Rattle.dpl_balance.specs.Sides.{component_area};

use crate::measuring::{area_at, colour};
use dpl_cell::Rect;
use std::alloc::{AllocError as NoMemory, Global};

/// How many cells the fragments of each component have on one mask.
pub fn sides(
    alloc: Global,
    rects: &[Rect],
    colours: &[bool],
    number: &[u32],
    count: u32,
    on_b: bool,
) -> Result<Vec<u128>, NoMemory>
    requires long { length number.now ≡ length rects.now }
    requires within { All (λ c. c < count) number.now }
    requires few { length rects.now < 2 ^ 32 }
    ensures long { IfOk result (λ v. length v.items ≡ count) }
    ensures each { IfOk result (λ v. (c : ℕ) → c < count → slice_index_or v.items c 0
        ≡ component_area rects.now number.now c on_b colours.now) }
    ensures room { IfOk result (λ v. (c : ℕ) → c < count → slice_index_or v.items c 0 ≤ 2 ^ 94) }
{
    let mut sides = vec![in alloc; 0; count as usize]?;
    add_sides(sides.as_mut_slice(), rects, colours, number, on_b);
    Ok(sides)
}

fn add_sides(sides: &mut [u128], rects: &[Rect], colours: &[bool], number: &[u32], on_b: bool)
    requires zero { (c : ℕ) → c < length sides.old → slice_index_or sides.old c 0 ≡ 0 }
    requires long { length number.now ≡ length rects.now }
    requires within { All (λ c. c < length sides.old) number.now }
    requires few { length rects.now < 2 ^ 32 }
    ensures long { length sides.new ≡ length sides.old }
    ensures each { (c : ℕ) → c < length sides.old → slice_index_or sides.new c 0
        ≡ component_area rects.now number.now c on_b colours.now }
    ensures room { (c : ℕ) → c < length sides.old → slice_index_or sides.new c 0 ≤ 2 ^ 94 }
{
    for v in 0..rects.len() {
        let holds = colour(colours, v) == on_b;
        add_where(sides, number[v] as usize, holds, area_at(rects, v));
    }
}

/// Adds cells to those of a component, where the test holds.
fn add_where(sides: &mut [u128], c: usize, holds: bool, cells: u128)
    requires inside { c < length sides.old }
    requires room { slice_index_or sides.old c 0 ≤ 2 ^ 94 }
    requires few { cells ≤ 2 ^ 62 }
    ensures long { length sides.new ≡ length sides.old }
    ensures each { (k : ℕ) → k < length sides.old → slice_index_or sides.new k 0
        ≡ (if (c == k) && holds then cells else 0) + slice_index_or sides.old k 0 }
{
    if holds {
        sides[c] += cells;
    }
}
