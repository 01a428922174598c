// A packing of odd walks that bounds more, over all edges of a graph.
ghost use Rattle.std.specs.Prelude.{◌≡◌, ◌<◌, ◌≤◌, ◌^◌, IfOk, OnOk, length};
ghost use Rattle.dpl_sign.specs.Packings.{IsPacking, bound_of};
ghost use Rattle.dpl_bound.specs.Packed.{IsGreaterOrSame, AreLaid};

use crate::laying::lay;
use crate::parting::{Parts, parts_of};
use crate::seeking::{Found, seek};
use crate::walking::is_odd_walk;
use dpl_list::Items;
use dpl_sign::{Cycle, Signed, Walk};
use std::alloc::{AllocError as NoMemory, Global};

/// Puts a walk behind those of a packing, if it is an odd walk and no edge is loaded beyond twice its weight.
fn add(
    graph: &Signed,
    found: &mut Vec<Cycle>,
    loads: &mut [u64],
    cycle: Cycle,
) -> Result<(), NoMemory>
    requires { AreLaid graph.now found.old.items loads.old }
    ensures { OnOk result (AreLaid graph.now found.new.items loads.new) }
{
    if cycle.half == 0 {
        return Ok(());
    }
    if !is_odd_walk(graph, &cycle.walk) {
        return Ok(());
    }
    if !lay(graph, loads, cycle.half, cycle.walk.edges.as_slice()) {
        return Ok(());
    }
    found.push(cycle)?;
    Ok(())
}

/// The same cycle again.
fn copied(alloc: Global, cycle: &Cycle) -> Result<Cycle, NoMemory>
    ensures { IfOk result (λ c. c ≡ cycle.now) }
{
    let edges = Vec::from_slice(alloc, cycle.walk.edges.as_slice())?;
    let walk = Walk {
        start: cycle.walk.start,
        edges: Items::new(edges),
    };
    let half = cycle.half;
    Ok(Cycle { half, walk })
}

/// Adds the cycles of those components for which the flag is as asked.
fn add_of(
    alloc: Global,
    graph: &Signed,
    found: &mut Vec<Cycle>,
    loads: &mut [u64],
    cycles: &[Cycle],
    parts: &Parts,
    wanted: bool,
) -> Result<(), NoMemory>
    requires { AreLaid graph.now found.old.items loads.old }
    ensures { OnOk result (AreLaid graph.now found.new.items loads.new) }
{
    for k in 0..cycles.len() {
        if parts.is_fresh(cycles[k].walk.start) == wanted {
            let same = copied(alloc, &cycles[k])?;
            add(graph, found, loads, same)?;
        }
    }
    Ok(())
}

/// The bound of a packing: the sum of its half weights.
pub fn bound(cycles: &[Cycle]) -> u64
    requires { bound_of cycles.now < 2 ^ 64 }
    ensures { result ≡ bound_of cycles.now }
{
    let mut sum = 0;
    for k in 0..cycles.len() {
        sum += cycles[k].half;
    }
    sum
}

/// Component by component the given cycles with those that go with them, or those that were found afresh.
fn packed(
    alloc: Global,
    graph: &Signed,
    cycles: &[Cycle],
    searched: &Found,
    parts: &Parts,
) -> Result<Vec<Cycle>, NoMemory>
    ensures { IfOk result (λ found. IsPacking graph.now found.items) }
{
    let mut loads = vec![in alloc; 0u64; graph.edges.as_slice().len()]?;
    let mut found = Vec::new(alloc);
    let places = loads.as_mut_slice();
    add_of(alloc, graph, &mut found, places, cycles, parts, false)?;
    let more = searched.more.as_slice();
    add_of(alloc, graph, &mut found, places, more, parts, false)?;
    let fresh = searched.fresh.as_slice();
    add_of(alloc, graph, &mut found, places, fresh, parts, true)?;
    Ok(found)
}

/// A packing whose bound is greater, or the same packing. The colours tell where the bound can rise: where half of it meets
/// what they cost, it cannot.
pub fn more_cycles(
    alloc: Global,
    graph: &Signed,
    colours: &[bool],
    cycles: Items<Cycle>,
) -> Result<Items<Cycle>, NoMemory>
    requires packing { IsPacking graph.now cycles }
    ensures packing { IfOk result (λ found. IsPacking graph.now found) }
    ensures bound { IfOk result (λ found. IsGreaterOrSame cycles found) }
{
    let mut parts = parts_of(alloc, graph, colours, cycles.as_slice())?;
    if !parts.are_open() {
        return Ok(cycles);
    }
    let searched = seek(alloc, graph, colours, cycles.as_slice(), &mut parts)?;
    let found = packed(alloc, graph, cycles.as_slice(), &searched, &parts)?;
    if bound(cycles.as_slice()) < bound(found.as_slice()) {
        return Ok(Items::new(found));
    }
    Ok(cycles)
}
