// Stops over items with those of each kind together.
ghost use Rattle.std.specs.Prelude.{ℕ, IfOk, length};
ghost use Rattle.dpl_index.specs.Kinds.{HasKinds};
ghost use Rattle.dpl_index.specs.Stops.{IsIndex, NamesAll};

use crate::bounds::Bounds;
use crate::kinds::kind_at;
use crate::stops::{Stop, places, sort, stops_at};
use std::alloc::{AllocError as NoMemory, Global};

/// A stop for each item, those of one kind together: a walk that leaves out the stops behind one whose items are all of
/// one kind, or far, looks at few. It takes about n log n steps for n items. Items that are given no kind have the kind 0.
pub fn stops_by_kind(alloc: Global, items: &[Bounds], kinds: &[u32]) -> Result<Vec<Stop>, NoMemory>
    ensures index { IfOk result (λ v. IsIndex items.now v.items) }
    ensures kinds { IfOk result (λ v. HasKinds kinds.now v.items) }
{
    let mut places = places(alloc, items, kinds)?;
    sort(&mut places);
    let mut groups = with_kinds(alloc, places.as_slice(), kinds)?;
    group(&mut groups)?;
    stops_at(alloc, items, kinds, groups.as_slice())
}

/// The same items in the same order, each with its kind.
fn with_kinds(
    alloc: Global,
    places: &[(u64, usize)],
    kinds: &[u32],
) -> Result<Vec<(u64, usize)>, NoMemory>
    ensures { IfOk result (λ v. (n : ℕ) → NamesAll n places.now → NamesAll n v.items) }
{
    let mut groups = Vec::with_capacity(alloc, places.len())?;
    for place in places {
        let number = place.1;
        groups.push((u64::from(kind_at(kinds, number)), number))?;
    }
    Ok(groups)
}

/// Puts items in the order of their kinds; those of one kind stay in order.
fn group(groups: &mut Vec<(u64, usize)>) -> Result<(), NoMemory>
    ensures { (n : ℕ) → NamesAll n groups.old.items → NamesAll n groups.new.items }
{
    groups.sort_by_key(|g| g.0)
}
