// Packings that begin with nothing, over graphs that are not plane.
ghost use Rattle.dpl_sign.specs.Packings.{IsPacking};

use crate::more_cycles;
use dpl_list::Items;
use dpl_sign::{Cycle, Edge, Signed};
use std::alloc::{AllocError as NoMemory, Global};
use std::process::Abort;
use std::test::Fail;

/// Bonds between these nodes, and clashes of weight 10.
fn edges_of(
    alloc: Global,
    bonds: &[(u32, u32)],
    clashes: &[(u32, u32)],
) -> Result<Vec<Edge>, NoMemory> {
    let mut edges = Vec::new(alloc);
    for (a, b) in bonds {
        if *a < *b {
            edges.push(Edge::bond(*a, *b))?;
        }
    }
    for (a, b) in clashes {
        if *a < *b {
            edges.push(Edge::clash(*a, *b, 10))?;
        }
    }
    Ok(edges)
}

/// No cycles, which are a packing of every graph.
fn no_cycles(alloc: Global, graph: &Signed) -> Items<Cycle>
    ensures { IsPacking graph.now result }
{
    let _nodes = graph.nodes;
    Items::new(Vec::new(alloc))
}

fn total(cycles: &[Cycle]) -> u64 {
    let mut sum = 0u64;
    for cycle in cycles {
        sum = sum.wrapping_add(cycle.half);
    }
    sum
}

/// The bound that is found from nothing, and the one that is found with that to begin with.
fn bounds(
    alloc: Global,
    nodes: u32,
    bonds: &[(u32, u32)],
    clashes: &[(u32, u32)],
    colours: &[bool],
) -> Result<(u64, u64), NoMemory> {
    let edges = edges_of(alloc, bonds, clashes)?;
    let Some(graph) = Signed::new(nodes, edges) else {
        return Ok((0, 0));
    };
    let found = more_cycles(alloc, &graph, colours, no_cycles(alloc, &graph))?;
    let first = total(found.as_slice());
    let again = more_cycles(alloc, &graph, colours, found)?;
    Ok((first, total(again.as_slice())))
}

/// Three nodes that clash with three others, which no drawing in the plane shows, and one clash more: it closes triangles,
/// and each colouring breaks something. Its weight is the least cost, and the bound is twice that.
#[test]
fn one_clash_too_many(rt: HostRuntime) -> Result<(), Fail> {
    let pairs = [
        (0, 3),
        (0, 4),
        (0, 5),
        (1, 3),
        (1, 4),
        (1, 5),
        (2, 3),
        (2, 4),
        (2, 5),
        (0, 1),
    ];
    let colours = [false, false, false, true, true, true];
    assert_eq!(rt; bounds(rt.alloc(), 6, &[], &pairs, &colours)?, (20, 20));
    Ok(())
}

/// Four nodes that all clash: two of the six clashes are broken at least, and four triangles of half a clash each show it.
#[test]
fn four_that_all_clash(rt: HostRuntime) -> Result<(), Fail> {
    let pairs = [(0, 1), (0, 2), (0, 3), (1, 2), (1, 3), (2, 3)];
    let colours = [false, false, true, true];
    assert_eq!(rt; bounds(rt.alloc(), 4, &[], &pairs, &colours)?, (40, 40));
    Ok(())
}

/// The same four, each of two nodes that a bond joins: the walks pass the bonds where they come to one end and leave from the
/// other.
#[test]
fn four_of_two_nodes_each(rt: HostRuntime) -> Result<(), Fail> {
    let bonds = [(0, 4), (1, 5), (2, 6), (3, 7)];
    let pairs = [(0, 1), (2, 4), (0, 3), (2, 5), (1, 7), (6, 7)];
    let colours = [false, false, true, true, false, false, true, true];
    assert_eq!(rt; bounds(rt.alloc(), 8, &bonds, &pairs, &colours)?, (40, 40));
    Ok(())
}

/// Of four that all clash there are four odd walks, and each is one cycle, however often it was found.
#[test]
fn each_walk_once(rt: HostRuntime) -> Result<(), Fail> {
    let pairs = [(0, 1), (0, 2), (0, 3), (1, 2), (1, 3), (2, 3)];
    let colours = [false, false, true, true];
    let edges = edges_of(rt.alloc(), &[], &pairs)?;
    let Some(graph) = Signed::new(4, edges) else {
        return Ok(());
    };
    let none = no_cycles(rt.alloc(), &graph);
    let found = more_cycles(rt.alloc(), &graph, &colours, none)?;
    assert_eq!(rt; found.as_slice().len(), 4);
    Ok(())
}
