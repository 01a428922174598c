// Other colours in the components where they cost less.
ghost use Rattle.std.specs.Prelude.{◌≡◌, ◌+◌, ◌<◌, ◌≤◌, ◌^◌, nat_lt, if◌then◌else◌, ℕ, false, length, slice_index_or, All, IfOk};
ghost use Rattle.dpl_sign.specs.Colourings.{IsColouring};
ghost use Rattle.dpl_refine.specs.Components.{weight_in, is_of, cost_of_part};
ghost use Rattle.dpl_refine.specs.Refined.{IsCheaperOrSameAround};

use crate::gaining::add_where;
use crate::joining::components;
use dpl_sign::{Edge, Signed, broken};
use std::alloc::{AllocError as NoMemory, Global};

/// Adds the weight of an edge to the sum of its component, if the colours break it.
fn add_broken(sums: &mut [u64], edge: &Edge, part: &[u32], colours: &[bool])
    requires first { edge.now.a < length part.now }
    requires second { edge.now.b < length part.now }
    requires coloured { length colours.now ≡ length part.now }
    requires within { All (λ c. c < length sums.old) part.now }
    requires room { (k : ℕ) → k < length sums.old → slice_index_or sums.old k 0 ≤ 2 ^ 59 }
    ensures long { length sums.new ≡ length sums.old }
    ensures each { (k : ℕ) → k < length sums.old → slice_index_or sums.new k 0
        ≡ weight_in (is_of part.now k) colours.now edge.now + slice_index_or sums.old k 0 }
{
    let p = part[edge.a as usize];
    let is_broken = broken(edge, colours[edge.a as usize], colours[edge.b as usize]);
    add_where(sums, p as usize, is_broken, edge.weight);
}

/// Adds the weight of each edge that the colours break to the sum of its component.
fn add_all(sums: &mut [u64], edges: &[Edge], part: &[u32], colours: &[bool])
    requires few { length edges.now < 2 ^ 30 }
    requires ends { All (λ e. e.b < length part.now) edges.now }
    requires coloured { length colours.now ≡ length part.now }
    requires within { All (λ c. c < length sums.old) part.now }
    requires zero { (k : ℕ) → k < length sums.old → slice_index_or sums.old k 0 ≡ 0 }
    ensures long { length sums.new ≡ length sums.old }
    ensures each { (k : ℕ) → k < length sums.old → slice_index_or sums.new k 0
        ≡ cost_of_part part.now k edges.now colours.now }
{
    for edge in edges {
        add_broken(sums, edge, part, colours);
    }
}

/// What the colours cost in each component.
fn costs(
    alloc: Global,
    edges: &[Edge],
    part: &[u32],
    count: u32,
    colours: &[bool],
) -> Result<Vec<u64>, NoMemory>
    requires few { length edges.now < 2 ^ 30 }
    requires ends { All (λ e. e.b < length part.now) edges.now }
    requires coloured { length colours.now ≡ length part.now }
    requires within { All (λ c. c < count) part.now }
    ensures long { IfOk result (λ v. length v.items ≡ count) }
    ensures each { IfOk result (λ v. (k : ℕ) → k < count → slice_index_or v.items k 0
        ≡ cost_of_part part.now k edges.now colours.now) }
{
    let mut sums = vec![in alloc; 0; count as usize]?;
    add_all(sums.as_mut_slice(), edges, part, colours);
    Ok(sums)
}

fn one_of(first: bool, one: bool, other: bool) -> bool
    ensures { result ≡ if first then one else other }
{
    if first { one } else { other }
}

/// The tried colour of each node in whose component these cost less, and the old one of every other.
fn chosen(
    alloc: Global,
    part: &[u32],
    old: &[bool],
    tried: &[bool],
    before: &[u64],
    after: &[u64],
) -> Result<Vec<bool>, NoMemory>
    requires long { length part.now ≡ length old.now }
    requires tried { length tried.now ≡ length old.now }
    requires before { All (λ c. c < length before.now) part.now }
    requires after { length after.now ≡ length before.now }
    ensures long { IfOk result (λ v. length v.items ≡ length old.now) }
    ensures each { IfOk result (λ v. (k : ℕ) → k < length old.now → slice_index_or v.items k false
        ≡ if nat_lt (slice_index_or after.now (slice_index_or part.now k 0) 0)
        (slice_index_or before.now (slice_index_or part.now k 0) 0)
        then slice_index_or tried.now k false else slice_index_or old.now k false) }
{
    let mut found = Vec::new(alloc);
    for k in 0..old.len() {
        let p = part[k] as usize;
        found.push(one_of(after[p] < before[p], tried[k], old[k]))?;
    }
    Ok(found)
}

/// The tried colours in the components where they cost less, and elsewhere the old ones.
pub fn cheaper_around(
    alloc: Global,
    graph: &Signed,
    old: &[bool],
    tried: &[bool],
) -> Result<Vec<bool>, NoMemory>
    requires old { IsColouring graph.now old.now }
    requires tried { IsColouring graph.now tried.now }
    ensures colouring { IfOk result (λ v. IsColouring graph.now v.items) }
    ensures around { IfOk result (λ v. IsCheaperOrSameAround graph.now old.now v.items) }
{
    let (part, count) = components(alloc, graph)?;
    let part = part.as_slice();
    let edges = graph.edges.as_slice();
    let before = costs(alloc, edges, part, count, old)?;
    let after = costs(alloc, edges, part, count, tried)?;
    let found = chosen(alloc, part, old, tried, before.as_slice(), after.as_slice())?;
    Ok(found)
}
