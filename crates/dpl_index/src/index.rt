// Items found by their bounds.
ghost use Rattle.std.specs.Prelude.{ℕ, ◌<◌, ◌≤◌, length, IfOk, OnOk};
ghost use Rattle.dpl_index.specs.Meetings.{AddsMeeting, HasMeeting};
ghost use Rattle.dpl_index.specs.Stops.{IsIndex};

use crate::bounds::{Bounds, do_meet};
use crate::order::put_in_order;
use crate::stops::{Stop, stops_of};
use std::alloc::{AllocError as NoMemory, Global};
use std::marker::Model;

/// Room for so many items is made before a search: most find fewer, and then no list grows.
const USUAL: usize = 16;

/// Finds the items whose bounds meet others. Contracts see it as the list of the bounds of all items, by number.
#[derive(Drop)]
pub struct Index {
    bounds: Vec<Bounds>,
    stops: Vec<Stop>,
}

impl Model for Index {
    ghost use Rattle.std.specs.Prelude.{List};
    ghost use Rattle.dpl_index.specs.declared.bounds.Bounds.{Bounds};
    ghost use Rattle.dpl_index.specs.declared.stops.Stop.{Stop};
    ghost use Rattle.dpl_index.specs.Stops.{IsIndex};

    ghost Value = { List Bounds };

    ghost view = { λ x. x.bounds.items };

    ghost invariant = { λ x. IsIndex x.bounds.items x.stops.items };
}

impl Index {
    ghost use Rattle.std.specs.Prelude.{◌≡◌, IfOk};
    ghost use Rattle.dpl_index.specs.Meetings.{AreMeeting};

    /// An index of items with these bounds. It takes about n log n steps for n of them.
    pub fn new(alloc: Global, bounds: Vec<Bounds>) -> Result<Index, NoMemory>
        ensures { IfOk result (λ index. index ≡ bounds.items) }
    {
        let stops = stops_of(alloc, bounds.as_slice(), &[])?;
        Ok(Index { bounds, stops })
    }

    /// The numbers of the items whose bounds meet these, ascending.
    pub fn meeting(&self, alloc: Global, window: &Bounds) -> Result<Vec<usize>, NoMemory>
        ensures { IfOk result (λ v. AreMeeting self.now window.now v.items) }
    {
        let (bounds, stops) = (self.bounds.as_slice(), self.stops.as_slice());
        let mut found = gather(alloc, bounds, stops, window, usize::MAX)?;
        put_in_order(&mut found);
        Ok(found)
    }
}

/// The numbers of the items whose bounds meet these, in any order; where there are more than `enough`, one more than that.
fn gather(
    alloc: Global,
    items: &[Bounds],
    stops: &[Stop],
    window: &Bounds,
    enough: usize,
) -> Result<Vec<usize>, NoMemory>
    requires { IsIndex items.now stops.now }
    ensures { IfOk result (λ v. length v.items ≤ enough →
        HasMeeting items.now window.now v.items) }
{
    let mut found = Vec::with_capacity(alloc, USUAL.min(stops.len()))?;
    let mut at = 0;
    'stops: while at < stops.len() {
        let stop = stops[at];
        if do_meet(&stop.bounds, window) {
            push_meeting(&mut found, items, window, stop.number)?;
            if found.len() > enough {
                return Ok(found);
            }
            at += 1;
        } else {
            at += stop.rest + 1;
        }
    }
    Ok(found)
}

/// Adds an item if its bounds meet others.
fn push_meeting(
    found: &mut Vec<usize>,
    items: &[Bounds],
    window: &Bounds,
    i: usize,
) -> Result<(), NoMemory>
    requires { i < length items.now }
    ensures { OnOk result (AddsMeeting items.now window.now i found.old.items found.new.items) }
{
    if do_meet(&items[i], window) {
        found.push(i)?;
    }
    Ok(())
}
