// Items found by their bounds and their kinds.
ghost use Rattle.std.specs.Prelude.{◌≡◌, ◌⊎◌, false, ℕ, ◌<◌, ◌≤◌, length, All, OnOk, Some};
ghost use Rattle.dpl_index.specs.Kinds.{AddsAsked, HasAskedFrom, HasKinds};
ghost use Rattle.dpl_index.specs.Meetings.{Meets};
ghost use Rattle.dpl_index.specs.Stops.{IsIndex};

use crate::bounds::{Bounds, do_meet};
use crate::kinds::{is_of, kind_at};
use crate::stops::{Stop, stops_of};
use std::alloc::{AllocError as NoMemory, Global};
use std::marker::Model;

/// Room for so many items is made before a search: most find fewer, and then no list grows.
const USUAL: usize = 16;

/// What is asked for: of other kinds than this one the items whose bounds meet `far`, and of this kind those whose bounds
/// meet both.
#[derive(Clone, Copy, Debug)]
pub struct Ask {
    pub near: Bounds,
    pub far: Bounds,
    pub kind: u32,
}

/// Finds items by their bounds and their kinds.
#[derive(Drop)]
pub struct KindIndex {
    bounds: Vec<Bounds>,
    kinds: Vec<u32>,
    stops: Vec<Stop>,
}

impl Model for KindIndex {
    ghost use Rattle.std.specs.Prelude.{map};
    ghost use Rattle.dpl_index.specs.declared.stops.Stop.{Stop};
    ghost use Rattle.dpl_index.specs.Kinds.{HasKinds, Standing};
    ghost use Rattle.dpl_index.specs.Stops.{IsIndex};

    ghost Value = { Standing };

    ghost view = { λ x. record {
      kinded = record { items = x.bounds.items; kinds = x.kinds.items };
      order = map (λ (s : Stop). s.number) x.stops.items;
    } };

    ghost invariant = { λ x. record {
      index : IsIndex x.bounds.items x.stops.items;
      kinds : HasKinds x.kinds.items x.stops.items;
    } };
}

impl KindIndex {
    ghost use Rattle.std.specs.Prelude.{◌≡◌, ◌<◌, length, slice_index_or, All, IfOk, IfSome, OnOk};
    ghost use Rattle.dpl_index.specs.Kinds.{HasAsked, HasAskedBehind, IsOrder};

    /// An index of items with these bounds and kinds. It takes about n log n steps for n of them.
    pub fn new(alloc: Global, bounds: Vec<Bounds>, kinds: Vec<u32>) -> Result<KindIndex, NoMemory>
        ensures { IfOk result (λ index.
            index.kinded ≡ record { items = bounds.items; kinds = kinds.items }) }
    {
        let stops = stops_of(alloc, bounds.as_slice(), kinds.as_slice())?;
        Ok(KindIndex {
            bounds,
            kinds,
            stops,
        })
    }

    /// Numbers of items, among them all that are asked for.
    pub fn asked(&self, alloc: Global, ask: &Ask) -> Result<Vec<usize>, NoMemory>
        ensures { IfOk result (λ v. HasAsked self.now.kinded ask.now v.items) }
    {
        let (bounds, kinds) = (self.bounds.as_slice(), self.kinds.as_slice());
        let stops = self.stops.as_slice();
        let mut found = Vec::with_capacity(alloc, USUAL.min(stops.len()))?;
        gather_asked(&mut found, bounds, kinds, stops, 0, ask, usize::MAX)?;
        Ok(found)
    }

    /// How many places there are. Items that stand near one another in the plane stand at near places.
    pub fn places(&self) -> usize
        ensures count { result ≡ length self.now.order }
        ensures order { IsOrder (length self.now.kinded.items) self.now.order }
    {
        self.stops.len()
    }

    /// The number of the item at a place.
    pub fn item_at(&self, place: usize) -> usize
        requires { place < length self.now.order }
        ensures { result ≡ slice_index_or self.now.order place 0 }
    {
        self.stops[place].number
    }

    /// Puts into a list, in place of what it has, numbers of items, among them all that stand behind a place and are
    /// asked for. It looks at about half as many as a search among all.
    pub fn put_asked_behind(
        &self,
        place: usize,
        ask: &Ask,
        found: &mut Vec<usize>,
    ) -> Result<(), NoMemory>
        requires { place < length self.now.order }
        ensures { OnOk result (HasAskedBehind self.now ask.now place found.new.items) }
    {
        let (bounds, kinds) = (self.bounds.as_slice(), self.kinds.as_slice());
        let stops = self.stops.as_slice();
        gather_asked(found, bounds, kinds, stops, place + 1, ask, usize::MAX)?;
        Ok(())
    }

    /// The same, or `None` as soon as more than `most` are found.
    pub fn few_asked(
        &self,
        alloc: Global,
        ask: &Ask,
        most: usize,
    ) -> Result<Option<Vec<usize>>, NoMemory>
        ensures { IfOk result (λ few. IfSome few (λ v. HasAsked self.now.kinded ask.now v.items)) }
    {
        let (bounds, kinds) = (self.bounds.as_slice(), self.kinds.as_slice());
        let stops = self.stops.as_slice();
        let mut found = Vec::with_capacity(alloc, USUAL.min(stops.len()))?;
        gather_asked(&mut found, bounds, kinds, stops, 0, ask, most)?;
        if found.len() > most {
            return Ok(None);
        }
        Ok(Some(found))
    }

    /// Some of the numbers of items that are asked for: all, or one more than `most`.
    pub fn some_asked(&self, alloc: Global, ask: &Ask, most: usize) -> Result<Vec<usize>, NoMemory>
        ensures { IfOk result (λ v. All (λ i. i < length self.now.kinded.items) v.items) }
    {
        let (bounds, kinds) = (self.bounds.as_slice(), self.kinds.as_slice());
        let stops = self.stops.as_slice();
        let mut found = Vec::with_capacity(alloc, USUAL.min(stops.len()))?;
        gather_asked(&mut found, bounds, kinds, stops, 0, ask, most)?;
        Ok(found)
    }
}

/// The numbers of the items that are asked for at the stops from one on; where there are more than `enough`, some of
/// them, one more than that.
fn gather_asked(
    found: &mut Vec<usize>,
    items: &[Bounds],
    kinds: &[u32],
    stops: &[Stop],
    from: usize,
    ask: &Ask,
    enough: usize,
) -> Result<(), NoMemory>
    requires index { IsIndex items.now stops.now }
    requires kinds { HasKinds kinds.now stops.now }
    ensures each { OnOk result (All (λ i. i < length items.now) found.new.items) }
    ensures all { OnOk result (length found.new.items ≤ enough →
        HasAskedFrom (record { items = items.now; kinds = kinds.now }) ask.now stops.now from
        found.new.items) }
{
    let ask = *ask;
    found.clear();
    let mut at = from;
    'stops: while at < stops.len() {
        let stop = &stops[at];
        if may_hold(stop, &ask) {
            push_asked(found, items, kinds, &ask, stop)?;
            if found.len() > enough {
                return Ok(());
            }
            at += 1;
        } else {
            at += stop.rest + 1;
        }
    }
    Ok(())
}

/// Whether an item of a stop, or of those that it holds, may be asked for.
fn may_hold(stop: &Stop, ask: &Ask) -> bool
    ensures { result ≡ false → (¬ Meets stop.now.bounds ask.now.far) ⊎
        ((stop.now.kind ≡ Some ask.now.kind) × (¬ Meets stop.now.bounds ask.now.near)) }
{
    if do_meet(&stop.bounds, &ask.far) {
        if is_of(stop.kind, ask.kind) {
            do_meet(&stop.bounds, &ask.near)
        } else {
            true
        }
    } else {
        false
    }
}

/// Adds the item of a stop if it is asked for. The bounds of a stop that holds no other are those of its item, and were
/// looked at.
fn push_asked(
    found: &mut Vec<usize>,
    items: &[Bounds],
    kinds: &[u32],
    ask: &Ask,
    stop: &Stop,
) -> Result<(), NoMemory>
    requires { stop.now.number < length items.now }
    ensures { OnOk result (AddsAsked (record { items = items.now; kinds = kinds.now }) ask.now
        stop.now.number found.old.items found.new.items) }
{
    let i = stop.number;
    if stop.rest == 0 {
        found.push(i)?;
        return Ok(());
    }
    let item = &items[i];
    if do_meet(item, &ask.far) {
        if kind_at(kinds, i) != ask.kind || do_meet(item, &ask.near) {
            found.push(i)?;
        }
    }
    Ok(())
}
