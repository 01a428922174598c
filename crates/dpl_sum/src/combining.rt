// Solutions of the components of a net, put together.
ghost use Rattle.std.specs.Prelude.{◌≡◌, ℕ, ◌<◌, ◌^◌, ◌++◌, length, map, slice_index_or, All, IfOk, OnOk};
ghost use Rattle.dpl_sign.specs.Colourings.{colour_of};
ghost use Rattle.dpl_sign.specs.Packings.{bound_of};
ghost use Rattle.dpl_parts.specs.Shares.{ShareOut, AgreeWith, renumbered, all_cycles};
ghost use Rattle.dpl_solve.specs.Solved.{IsSolution};
ghost use Rattle.dpl_sum.specs.Laying.{laid, with_part, solved_part};
ghost use Rattle.dpl_sum.specs.Solved.{IsSolved};

use dpl_drawing::draw;
use dpl_list::Items;
use dpl_parts::Gathered;
use dpl_sign::{Cycle, Net, Walk, cost};
use dpl_solve::Solution;
use std::alloc::{AllocError as NoMemory, Global};

/// Some components of a net, and an optimum of them in their own numbers.
#[derive(Drop)]
pub struct SolvedPart {
    pub part: Gathered,
    pub solution: Solution,
}

/// The number at a place, 0 where there is none.
pub fn number_at(numbers: &[u32], place: usize) -> u32
    ensures { result ≡ slice_index_or numbers.now place 0 }
{
    match numbers.get(place) {
        Some(number) => *number,
        None => 0,
    }
}

fn colour_at(colours: &[bool], place: usize) -> bool
    ensures { result ≡ colour_of colours.now place }
{
    match colours.get(place) {
        Some(colour) => *colour,
        None => false,
    }
}

/// Puts the colours of the first so many nodes at their numbers in the whole.
fn lay(colours: &mut [bool], count: usize, nodes: &[u32], own: &[bool])
    requires { (v : ℕ) → v < count → slice_index_or nodes.now v 0 < length colours.old }
    ensures { colours.new ≡ laid (λ v. slice_index_or nodes.now v 0) (colour_of own.now)
        colours.old count }
{
    for v in 0..count {
        colours[number_at(nodes, v) as usize] = colour_at(own, v);
    }
}

fn lay_part(colours: &mut [bool], part: &SolvedPart)
    requires { (v : ℕ) → v < (solved_part part.now).net.graph.nodes →
        (solved_part part.now).node v < length colours.old }
    ensures { colours.new ≡ with_part (solved_part part.now) colours.old }
{
    lay(
        colours,
        part.part.net.graph.nodes as usize,
        part.part.nodes.as_slice(),
        part.solution.colours.as_slice(),
    );
}

/// Puts the colours of all parts at their nodes in the whole.
fn lay_all(colours: &mut [bool], net: &Net, parts: &[SolvedPart])
    requires share { ShareOut net.now (map solved_part parts.now) }
    requires nodes { length colours.old ≡ net.now.graph.nodes }
    ensures { AgreeWith colours.new (map solved_part parts.now) }
{
    let _net = net;
    for i in 0..parts.len() {
        lay_part(colours, &parts[i]);
    }
}

/// A colour for each node of the net, that which it has in its part.
fn colours_of(alloc: Global, net: &Net, parts: &[SolvedPart]) -> Result<Vec<bool>, NoMemory>
    requires share { ShareOut net.now (map solved_part parts.now) }
    ensures long { IfOk result (λ v. length v.items ≡ net.now.graph.nodes) }
    ensures agree { IfOk result (λ v. AgreeWith v.items (map solved_part parts.now)) }
{
    let mut colours = vec![in alloc; false; net.graph.nodes as usize]?;
    lay_all(&mut colours, net, parts);
    Ok(colours)
}

fn renumbered_edges(alloc: Global, edges: &[u32], numbers: &[u32]) -> Result<Vec<u32>, NoMemory>
    ensures { IfOk result (λ v. v.items ≡ map (λ e. slice_index_or numbers.now e 0) edges.now) }
{
    let mut found = Vec::new(alloc);
    for edge in edges {
        found.push(number_at(numbers, *edge as usize))?;
    }
    Ok(found)
}

/// A cycle in the numbers of the whole.
fn renumbered_cycle(alloc: Global, part: &SolvedPart, cycle: &Cycle) -> Result<Cycle, NoMemory>
    ensures { IfOk result (λ c. c ≡ renumbered (solved_part part.now) cycle.now) }
{
    let edges = renumbered_edges(
        alloc,
        cycle.walk.edges.as_slice(),
        part.part.edges.as_slice(),
    )?;
    let walk = Walk {
        start: number_at(part.part.nodes.as_slice(), cycle.walk.start as usize),
        edges: Items::new(edges),
    };
    Ok(Cycle {
        half: cycle.half,
        walk,
    })
}

fn add_cycles(
    alloc: Global,
    found: &mut Vec<Cycle>,
    part: &SolvedPart,
    cycles: &[Cycle],
) -> Result<(), NoMemory>
    ensures { OnOk result (found.new.items ≡ found.old.items
        ++ map (renumbered (solved_part part.now)) cycles.now) }
{
    for cycle in cycles {
        let moved = renumbered_cycle(alloc, part, cycle)?;
        found.push(moved)?;
    }
    Ok(())
}

/// The cycles of all parts in the numbers of the whole.
fn cycles_of(alloc: Global, parts: &[SolvedPart]) -> Result<Vec<Cycle>, NoMemory>
    ensures { IfOk result (λ v. v.items ≡ all_cycles (map solved_part parts.now)) }
{
    let mut found = Vec::new(alloc);
    for part in parts {
        add_cycles(alloc, &mut found, part, part.solution.cycles.as_slice())?;
    }
    Ok(found)
}

/// The sum of the half weights.
fn total(cycles: &[Cycle]) -> u64
    requires { bound_of cycles.now < 2 ^ 64 }
    ensures { result ≡ bound_of cycles.now }
{
    let mut sum = 0;
    for i in 0..cycles.len() {
        sum += cycles[i].half;
    }
    sum
}

/// The optimum of a net from those of parts that share it out, in time near linear in the net.
pub fn combine(alloc: Global, net: &Net, parts: &[SolvedPart]) -> Result<Solution, NoMemory>
    requires share { ShareOut net.now (map solved_part parts.now) }
    requires solved { All IsSolved (map solved_part parts.now) }
    ensures { IfOk result (λ s.
        IsSolution net.now s.colours.items s.cost s.aside s.excess s.cycles s.bound) }
{
    let colours = colours_of(alloc, net, parts)?;
    let cycles = cycles_of(alloc, parts)?;
    let drawing = draw(alloc, net)?;
    let cost = cost(&net.graph, colours.as_slice());
    let bound = total(cycles.as_slice());
    Ok(Solution {
        colours,
        cost,
        aside: Items::new(drawing.aside),
        excess: drawing.excess,
        cycles: Items::new(cycles),
        bound,
    })
}
