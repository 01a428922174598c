// Whether two nets are the same, and copies of solutions.
ghost use Rattle.std.specs.Prelude.{◌≡◌, ◌<◌, ◌↔◌, ℕ, length, slice_index_or, IsTrue, IfOk};
ghost use Rattle.dpl_sign.specs.Drawings.{no_port};
ghost use Rattle.dpl_sign.specs.Walks.{no_edge};
ghost use Rattle.dpl_sum.specs.Solved.{AreSameNets};

use dpl_list::Items;
use dpl_sign::{Cycle, Edge, Net, Port, Walk};
use dpl_solve::Solution;
use std::alloc::{AllocError as NoMemory, Global};

fn is_one_edge(d: &Edge, e: &Edge) -> bool
    ensures { IsTrue result ↔ d.now ≡ e.now }
{
    d.a == e.a && d.b == e.b && d.kind == e.kind && d.weight == e.weight
}

fn is_one_port(p: &Port, q: &Port) -> bool
    ensures { IsTrue result ↔ p.now ≡ q.now }
{
    p.side == q.side && p.key == q.key && p.dx == q.dx && p.dy == q.dy
}

fn are_one(ports: &(Port, Port), others: &(Port, Port)) -> bool
    ensures { IsTrue result ↔ ports.now ≡ others.now }
{
    is_one_port(&ports.0, &others.0) && is_one_port(&ports.1, &others.1)
}

fn same_edges(edges: &[Edge], others: &[Edge]) -> bool
    ensures long { IsTrue result → length edges.now ≡ length others.now }
    ensures each { IsTrue result → (e : ℕ) → e < length edges.now →
        slice_index_or edges.now e no_edge ≡ slice_index_or others.now e no_edge }
{
    if edges.len() != others.len() {
        return false;
    }
    for e in 0..edges.len() {
        if !is_one_edge(&edges[e], &others[e]) {
            return false;
        }
    }
    true
}

fn same_ports(ports: &[(Port, Port)], others: &[(Port, Port)]) -> bool
    ensures { IsTrue result → (e : ℕ) → e < length ports.now →
        slice_index_or ports.now e (no_port, no_port) ≡ slice_index_or others.now e (no_port, no_port) }
{
    if ports.len() != others.len() {
        return false;
    }
    for e in 0..ports.len() {
        if !are_one(&ports[e], &others[e]) {
            return false;
        }
    }
    true
}

/// Whether two nets have the same nodes, edges and ports.
pub fn are_same(old: &Net, new: &Net) -> bool
    ensures { IsTrue result → AreSameNets old.now new.now }
{
    if old.graph.nodes != new.graph.nodes {
        return false;
    }
    if !same_edges(old.graph.edges.as_slice(), new.graph.edges.as_slice()) {
        return false;
    }
    same_ports(old.ports.as_slice(), new.ports.as_slice())
}

fn copy_cycle(alloc: Global, cycle: &Cycle) -> Result<Cycle, NoMemory>
    ensures { IfOk result (λ c. c ≡ cycle.now) }
{
    let edges = Vec::from_slice(alloc, cycle.walk.edges.as_slice())?;
    let walk = Walk {
        start: cycle.walk.start,
        edges: Items::new(edges),
    };
    Ok(Cycle {
        half: cycle.half,
        walk,
    })
}

fn copy_cycles(alloc: Global, cycles: &[Cycle]) -> Result<Vec<Cycle>, NoMemory>
    ensures { IfOk result (λ v. v.items ≡ cycles.now) }
{
    let mut copies = Vec::new(alloc);
    for cycle in cycles {
        let copy = copy_cycle(alloc, cycle)?;
        copies.push(copy)?;
    }
    Ok(copies)
}

/// A copy of a solution.
pub fn copy_solution(alloc: Global, solution: &Solution) -> Result<Solution, NoMemory>
    ensures colours { IfOk result (λ s. s.colours.items ≡ solution.now.colours.items) }
    ensures cost { IfOk result (λ s. s.cost ≡ solution.now.cost) }
    ensures aside { IfOk result (λ s. s.aside ≡ solution.now.aside) }
    ensures excess { IfOk result (λ s. s.excess ≡ solution.now.excess) }
    ensures cycles { IfOk result (λ s. s.cycles ≡ solution.now.cycles) }
    ensures bound { IfOk result (λ s. s.bound ≡ solution.now.bound) }
{
    let colours = Vec::from_slice(alloc, solution.colours.as_slice())?;
    let aside = Vec::from_slice(alloc, solution.aside.as_slice())?;
    let cycles = copy_cycles(alloc, solution.cycles.as_slice())?;
    Ok(Solution {
        colours,
        cost: solution.cost,
        aside: Items::new(aside),
        excess: solution.excess,
        cycles: Items::new(cycles),
        bound: solution.bound,
    })
}
