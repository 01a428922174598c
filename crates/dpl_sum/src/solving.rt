// The optimum of a net, one component after another.
ghost use Rattle.std.specs.Prelude.{◌≡◌, ◌<◌, ◌≤◌, length, map, slice_index_or, All, IfOk, IsTrue};
ghost use Rattle.dpl_limits.specs.declared.TheConstants.{MOST_EDGES};
ghost use Rattle.dpl_solve.specs.Solved.{IsSolution};
ghost use Rattle.dpl_sum.specs.Laying.{solved_part};
ghost use Rattle.dpl_sum.specs.declared.combining.SolvedPart.{SolvedPart};
ghost use Rattle.dpl_sum.specs.Solving.{part_in};
ghost use Rattle.dpl_sum.specs.Solved.{IsSolved, AreSameNets};

use crate::combining::{SolvedPart, combine, number_at};
use crate::comparing::{are_same, copy_solution};
use dpl_parts::{Gathered, split};
use dpl_sign::Net;
use dpl_solve::Solution;
use std::alloc::{AllocError as NoMemory, Global};

/// An optimum of some components by themselves.
fn solve_part(alloc: Global, part: Gathered) -> Result<SolvedPart, NoMemory>
    requires edges { length part.net.graph.edges ≤ MOST_EDGES }
    ensures part { IfOk result (λ s. s.part ≡ part) }
    ensures solved { IfOk result (λ s. IsSolved (solved_part s)) }
{
    let solution = dpl_solve::solve(alloc, &part.net)?;
    Ok(SolvedPart { part, solution })
}

/// Whether there is a known part at this place, with a net that is the same.
fn is_known(known: &[SolvedPart], place: usize, part: &Gathered) -> bool
    ensures below { IsTrue result → place < length known.now }
    ensures same { IsTrue result → (d : SolvedPart) →
        AreSameNets (slice_index_or known.now place d).part.net part.now.net }
{
    if place >= known.len() {
        return false;
    }
    are_same(&known[place].part.net, &part.net)
}

/// The optimum of another part whose net is the same.
fn reused(alloc: Global, part: Gathered, old: &SolvedPart) -> Result<SolvedPart, NoMemory>
    requires solved { IsSolved (solved_part old.now) }
    requires same { AreSameNets old.now.part.net part.net }
    ensures part { IfOk result (λ s. s.part ≡ part) }
    ensures solved { IfOk result (λ s. IsSolved (solved_part s)) }
{
    let solution = copy_solution(alloc, &old.solution)?;
    Ok(SolvedPart { part, solution })
}

/// An optimum of some components by themselves: the known one at this place, where its net is the same, and a new one
/// otherwise.
fn reuse_or_solve(
    alloc: Global,
    part: Gathered,
    known: &[SolvedPart],
    place: usize,
) -> Result<SolvedPart, NoMemory>
    requires edges { length part.net.graph.edges ≤ MOST_EDGES }
    requires known { All (λ s. IsSolved (solved_part s)) known.now }
    ensures part { IfOk result (λ s. s.part ≡ part) }
    ensures solved { IfOk result (λ s. IsSolved (solved_part s)) }
{
    if !is_known(known, place, &part) {
        return solve_part(alloc, part);
    }
    reused(alloc, part, &known[place])
}

/// The place that is noted for the first node of a part.
fn place_for(part: &Gathered, places: &[u32]) -> usize {
    let first = number_at(part.nodes.as_slice(), 0);
    number_at(places, first as usize) as usize
}

/// Optima of all parts.
fn solve_all(
    alloc: Global,
    parts: Vec<Gathered>,
    known: &[SolvedPart],
    places: &[u32],
) -> Result<Vec<SolvedPart>, NoMemory>
    requires edges { All (λ p. length p.net.graph.edges ≤ MOST_EDGES) parts.items }
    requires known { All (λ s. IsSolved (solved_part s)) known.now }
    ensures parts { IfOk result (λ v. map part_in v.items ≡ parts.items) }
    ensures solved { IfOk result (λ v. All (λ s. IsSolved (solved_part s)) v.items) }
{
    let mut solved = Vec::new(alloc);
    for part in parts {
        let place = place_for(&part, places);
        let one = reuse_or_solve(alloc, part, known, place)?;
        solved.push(one)?;
    }
    Ok(solved)
}

/// An optimum of a net, and those of its components.
#[derive(Drop)]
pub struct Solved {
    pub solution: Solution,
    pub parts: Vec<SolvedPart>,
}

/// The optimum of a net, found for each of its components by itself, with those of the components. Some may be known: for
/// each node of the net `places` has the place among them of one that may be that of the node's component, and it is taken
/// if its net is the same, so that only the others are solved.
pub fn solve_again(
    alloc: Global,
    net: &Net,
    known: &[SolvedPart],
    places: &[u32],
) -> Result<Solved, NoMemory>
    requires edges { length net.now.graph.edges ≤ MOST_EDGES }
    requires known { All (λ s. IsSolved (solved_part s)) known.now }
    ensures solved { IfOk result (λ r. IsSolution net.now r.solution.colours.items r.solution.cost
        r.solution.aside r.solution.excess r.solution.cycles r.solution.bound) }
    ensures parts { IfOk result (λ r. All (λ s. IsSolved (solved_part s)) r.parts.items) }
{
    let parts = split(alloc, net)?;
    let solved = solve_all(alloc, parts, known, places)?;
    let solution = combine(alloc, net, solved.as_slice())?;
    Ok(Solved {
        solution,
        parts: solved,
    })
}

/// The optimum of a net, found for each of its components by itself.
pub fn solve(alloc: Global, net: &Net) -> Result<Solution, NoMemory>
    requires edges { length net.now.graph.edges ≤ MOST_EDGES }
    ensures { IfOk result (λ s.
        IsSolution net.now s.colours.items s.cost s.aside s.excess s.cycles s.bound) }
{
    let Solved { solution, parts: _ } = solve_again(alloc, net, &[], &[])?;
    Ok(solution)
}
