// Stops over items: each has bounds that hold its item and those of the stops right behind it, and their kind if they
// have one.
ghost use Rattle.std.specs.Prelude.{◌≡◌, ℕ, ◌+◌, ◌<◌, length, slice_index_or, IfOk};
ghost use Rattle.dpl_index.specs.declared.stops.Stop.{Stop};
ghost use Rattle.dpl_index.specs.Kinds.{HasKinds};
ghost use Rattle.dpl_index.specs.Stops.{IsIndex, NamesAll};

use crate::bounds::{Bounds, around};
use crate::curve::{grain_of, place_of};
use crate::groups::{group_at, groups_of, place_within};
use crate::kinds::{common, kind_at};
use std::alloc::{AllocError as NoMemory, Global};

/// An item by its number, bounds that hold it and the items of the next `rest` stops, and the kind of all these items,
/// if they have one.
#[derive(Clone, Copy, Debug)]
pub struct Stop {
    pub number: usize,
    pub rest: usize,
    pub bounds: Bounds,
    pub kind: Option<u32>,
}

/// Where a stop holds at most so many, itself among them, those behind it hold no others: a walk looks at each.
const FEW: usize = 6;

/// A stop for each item, so that a walk which leaves out the stops behind one whose bounds are far looks at few. Items
/// that are given no kind have the kind 0.
pub fn stops_of(alloc: Global, items: &[Bounds], kinds: &[u32]) -> Result<Vec<Stop>, NoMemory>
    ensures index { IfOk result (λ v. IsIndex items.now v.items) }
    ensures kinds { IfOk result (λ v. HasKinds kinds.now v.items) }
{
    let mut places = places(alloc, items, kinds)?;
    sort(&mut places);
    stops_at(alloc, items, kinds, places.as_slice())
}

/// A stop for each place.
pub fn stops_at(
    alloc: Global,
    items: &[Bounds],
    kinds: &[u32],
    places: &[(u64, usize)],
) -> Result<Vec<Stop>, NoMemory>
    requires { NamesAll (length items.now) places.now }
    ensures index { IfOk result (λ v. IsIndex items.now v.items) }
    ensures kinds { IfOk result (λ v. HasKinds kinds.now v.items) }
{
    let mut stops = singles(alloc, items, kinds, places)?;
    let sizes = sizes(alloc, places)?;
    gather(items, kinds, stops.as_mut_slice(), &sizes);
    Ok(stops)
}

/// The numbers of all items, each with its group and its place on the curve.
pub fn places(alloc: Global, items: &[Bounds], kinds: &[u32]) -> Result<Vec<(u64, usize)>, NoMemory>
    ensures { IfOk result (λ v. NamesAll (length items.now) v.items) }
{
    let grain = grain_of(items);
    let groups = groups_of(alloc, kinds)?;
    let mut places = Vec::with_capacity(alloc, items.len())?;
    for i in 0..items.len() {
        let group = group_at(&groups, kind_at(kinds, i));
        places.push((place_within(group, place_of(grain, &items[i])), i))?;
    }
    Ok(places)
}

pub fn sort(places: &mut Vec<(u64, usize)>)
    ensures { (n : ℕ) → NamesAll n places.old.items → NamesAll n places.new.items }
{
    places.sort_unstable_by_key(|p| p.0);
}

/// A stop for each place, with the bounds and the kind of its item alone.
fn singles(
    alloc: Global,
    items: &[Bounds],
    kinds: &[u32],
    places: &[(u64, usize)],
) -> Result<Vec<Stop>, NoMemory>
    requires { NamesAll (length items.now) places.now }
    ensures index { IfOk result (λ v. IsIndex items.now v.items) }
    ensures kinds { IfOk result (λ v. HasKinds kinds.now v.items) }
{
    let mut stops = Vec::with_capacity(alloc, places.len())?;
    for p in places {
        let number = p.1;
        stops.push(Stop {
            number,
            rest: 0,
            bounds: items[number],
            kind: Some(kind_at(kinds, number)),
        })?;
    }
    Ok(stops)
}

/// How many stops each stop is to hold, itself among them: the first holds all. The stops behind one, as far as it holds
/// them, are held by four: those in each quarter of a square or of a half of one.
fn sizes(alloc: Global, places: &[(u64, usize)]) -> Result<Vec<usize>, NoMemory> {
    let count = places.len();
    let mut sizes = vec![in alloc; 0usize; count]?;
    set(&mut sizes, 0, count);
    for k in 0..count {
        let size = size_at(&sizes, k);
        if size > FEW {
            let from = k.wrapping_add(1);
            let to = k.wrapping_add(size);
            let middle = middle_of(places, from, to);
            set_halves(&mut sizes, places, from, middle);
            set_halves(&mut sizes, places, middle, to);
        }
    }
    Ok(sizes)
}

/// Sets two sizes for the stops from one on up to another.
fn set_halves(sizes: &mut [usize], places: &[(u64, usize)], from: usize, to: usize) {
    let middle = middle_of(places, from, to);
    set(sizes, from, middle.wrapping_sub(from));
    set(sizes, middle, to.wrapping_sub(middle));
}

/// Where the second half begins of the places from one on up to another.
fn middle_of(places: &[(u64, usize)], from: usize, to: usize) -> usize {
    from.wrapping_add(first_half(places.get(from..to).unwrap_or(&[])))
}

/// How many places, of some in order, agree with the first of them in more bits than with the last.
fn first_half(places: &[(u64, usize)]) -> usize {
    match (places.first(), places.last()) {
        (Some(first), Some(last)) if first.0 < last.0 => {
            places.partition_point(|p| p.0 ^ first.0 < p.0 ^ last.0)
        }
        _ => places.len() / 2,
    }
}

fn set(sizes: &mut [usize], k: usize, size: usize) {
    if size > 0 {
        if let Some(place) = sizes.get_mut(k) {
            *place = size;
        }
    }
}

fn size_at(sizes: &[usize], k: usize) -> usize {
    match sizes.get(k) {
        Some(size) => *size,
        None => 1,
    }
}

/// Widens the bounds of the stops, from the last to the first.
fn gather(items: &[Bounds], kinds: &[u32], stops: &mut [Stop], sizes: &[usize])
    requires index { IsIndex items.now stops.old }
    requires kinds { HasKinds kinds.now stops.old }
    ensures index { IsIndex items.now stops.new }
    ensures kinds { HasKinds kinds.now stops.new }
{
    let mut k = stops.len();
    'back: while k > 0 {
        k -= 1;
        widen(items, kinds, stops, k, size_at(sizes, k));
    }
}

/// Takes the stops right behind a stop into its bounds, until it holds so many.
fn widen(items: &[Bounds], kinds: &[u32], stops: &mut [Stop], k: usize, size: usize)
    requires index { IsIndex items.now stops.old }
    requires kinds { HasKinds kinds.now stops.old }
    requires within { k < length stops.old }
    ensures index { IsIndex items.now stops.new }
    ensures kinds { HasKinds kinds.now stops.new }
{
    let mut rest = stops[k].rest;
    'more: while rest + 1 < size && k + rest + 1 < stops.len() {
        rest = absorb(items, kinds, stops, k);
    }
}

/// Takes the next stop, with those within its bounds, into the bounds of a stop, and gives how many these then hold
/// behind it.
fn absorb(items: &[Bounds], kinds: &[u32], stops: &mut [Stop], k: usize) -> usize
    requires index { IsIndex items.now stops.old }
    requires kinds { HasKinds kinds.now stops.old }
    requires within { k < length stops.old }
    requires more { (d : Stop) → k + (slice_index_or stops.old k d).rest + 1 < length stops.old }
    ensures index { IsIndex items.now stops.new }
    ensures kinds { HasKinds kinds.now stops.new }
    ensures value { (d : Stop) → result ≡ (slice_index_or stops.new k d).rest }
    ensures more { (d : Stop) → (slice_index_or stops.old k d).rest < result }
    ensures low { k + result < length stops.old }
{
    let stop = stops[k];
    let next = stops[k + stop.rest + 1];
    let rest = stop.rest + next.rest + 1;
    stops[k] = Stop {
        number: stop.number,
        rest,
        bounds: around(&stop.bounds, &next.bounds),
        kind: common(stop.kind, next.kind),
    };
    rest
}
