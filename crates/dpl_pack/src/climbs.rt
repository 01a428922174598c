//! How far two points of the tree of a family are apart, by the ways of their members out to open water.

ghost use Rattle.std.specs.Prelude.{◌≡◌, ℕ, ◌+◌, ◌-◌, ◌<◌, ◌≤◌, ◌^◌, true, length, slice_index, IfOk};
ghost use Rattle.dpl_laminar.specs.Storing.{sets_of};
ghost use Rattle.dpl_laminar.specs.Families.{IsFamily};
ghost use Rattle.dpl_pack.specs.Nests.{inner_of};
ghost use Rattle.dpl_pack.specs.Points.{on, apart, total_at};
ghost use Rattle.dpl_pack.specs.Climbs.{weight_in, walked, AreTotals};

use dpl_laminar::Family;
use std::alloc::{AllocError, Global};

/// A family, and for each member how far its seat is from open water.
#[derive(Clone, Copy)]
pub struct Tree<'a> {
    pub family: &'a Family,
    pub totals: &'a [u128],
}

/// How far the seat of a member is from open water.
fn total(family: &Family, n: u32, member: u32) -> u128
    requires size { n ≡ (sets_of family.now).size }
    requires member { member < n }
    ensures { result ≡ total_at (sets_of family.now) member }
{
    let _top = family.tops(member);
    let mut set = member;
    let mut inside = 0u128;
    for _step in 0..n {
        let value = family.value(set) as u128;
        inside += value;
        match family.parent(set) {
            Some(parent) => set = parent,
            None => return inside,
        }
    }
    unreachable!()
}

/// The same for all members.
pub fn all_totals(alloc: Global, family: &Family, n: u32) -> Result<Vec<u128>, AllocError>
    requires size { n ≡ (sets_of family.now).size }
    ensures { IfOk result (λ v. AreTotals (sets_of family.now) v.items) }
{
    let mut totals = Vec::with_capacity(alloc, n as usize)?;
    for member in 0..n {
        totals.push(total(family, n, member))?;
    }
    Ok(totals)
}

/// How far two points are apart in a set that holds the member of the first, and beyond so much
/// inside; or 0 where the set holds the other member as well, and such sets are left out.
fn weigh(
    tree: &Tree<'_>,
    set: u32,
    inside: u128,
    first: (u32, u128),
    second: (u32, u128),
    skips: bool,
) -> u128
    requires family { IsFamily (sets_of tree.now.family.now) }
    requires totals { AreTotals (sets_of tree.now.family.now) tree.now.totals.now }
    requires first { first.0 < (sets_of tree.now.family.now).size }
    requires second { second.0 < (sets_of tree.now.family.now).size }
    requires live { (sets_of tree.now.family.now).live set ≡ true }
    requires set { set < (sets_of tree.now.family.now).size + (sets_of tree.now.family.now).size }
    requires held { (sets_of tree.now.family.now).holds set first.0 ≡ true }
    requires inside { inside ≡ inner_of (sets_of tree.now.family.now) set first.0 }
    requires small { inside ≤ 2 ^ 72 }
    ensures { result ≡ weight_in (sets_of tree.now.family.now) first second skips set }
{
    let value = tree.family.value(set) as u128;
    let depth = value.min(first.1.saturating_sub(inside));
    if !tree.family.holds(set, second.0) {
        return value - depth;
    }
    if skips {
        return 0;
    }
    let beside = inside + tree.totals[second.0 as usize] - tree.totals[first.0 as usize];
    let other = value.min(second.1.saturating_sub(beside));
    if depth < other {
        return other - depth;
    }
    depth - other
}

/// What two points are apart in the sets that hold the member of the first, but for those that hold the
/// other one as well, where these are left out.
fn walk(tree: &Tree<'_>, first: (u32, u128), second: (u32, u128), skips: bool) -> u128
    requires totals { AreTotals (sets_of tree.now.family.now) tree.now.totals.now }
    requires first { first.0 < (sets_of tree.now.family.now).size }
    requires second { second.0 < (sets_of tree.now.family.now).size }
    ensures sum { result ≡ walked (sets_of tree.now.family.now) first second skips }
    ensures small { result ≤ 2 ^ 72 }
{
    let _top = tree.family.tops(first.0);
    let n = tree.totals.len();
    let mut set = first.0;
    let mut inside = 0u128;
    let mut sum = 0u128;
    for _step in 0..n {
        sum += weigh(tree, set, inside, first, second, skips);
        let value = tree.family.value(set) as u128;
        match tree.family.parent(set) {
            Some(parent) => set = parent,
            None => return sum,
        }
        inside += value;
    }
    unreachable!()
}

/// How far two points are apart.
pub fn apart(tree: &Tree<'_>, first: (u32, u128), second: (u32, u128)) -> u128
    requires totals { AreTotals (sets_of tree.now.family.now) tree.now.totals.now }
    requires first { first.0 < (sets_of tree.now.family.now).size }
    requires second { second.0 < (sets_of tree.now.family.now).size }
    ensures { result ≡ apart (sets_of tree.now.family.now) (on first.0 first.1) (on second.0 second.1) }
{
    walk(tree, first, second, false) + walk(tree, second, first, true)
}
