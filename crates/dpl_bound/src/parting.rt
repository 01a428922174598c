// The components of a graph, what colours cost there and how far a packing bounds it. Nothing here stands in a contract: it
// only tells where a search pays.
use dpl_refine::components;
use dpl_sign::{Cycle, Edge, Signed, broken};
use std::alloc::{AllocError as NoMemory, Global};

/// The number at a place, or 0 where there is none.
pub fn number_at(numbers: &[u64], place: usize) -> u64 {
    if place < numbers.len() {
        numbers[place]
    } else {
        0
    }
}

/// Adds to the number at a place.
pub fn add_at(numbers: &mut [u64], place: usize, by: u64) {
    if place < numbers.len() {
        numbers[place] = numbers[place].saturating_add(by);
    }
}

/// The components, for each twice what the colours cost there, and the bounds of two packings.
#[derive(Drop)]
pub struct Parts {
    part: Vec<u32>,
    pub most: Vec<u64>,
    /// That of the given cycles and what goes with them.
    pub given: Vec<u64>,
    /// That of the cycles that were found afresh.
    pub fresh: Vec<u64>,
}

impl Parts {
    /// The component of a node.
    pub fn part(&self, node: u32) -> usize {
        let part = self.part.as_slice();
        if (node as usize) < part.len() {
            part[node as usize] as usize
        } else {
            part.len()
        }
    }

    /// Whether what was found afresh bounds more in the component of a node.
    pub fn is_fresh(&self, node: u32) -> bool {
        let part = self.part(node);
        number_at(self.given.as_slice(), part) < number_at(self.fresh.as_slice(), part)
    }

    /// Whether the bound can rise in the component of a node.
    pub fn is_open(&self, node: u32) -> bool {
        let part = self.part(node);
        number_at(self.given.as_slice(), part) < number_at(self.most.as_slice(), part)
    }

    /// Whether the bound can rise in some component.
    pub fn are_open(&self) -> bool {
        for k in 0..self.most.len() {
            if number_at(self.given.as_slice(), k) < number_at(self.most.as_slice(), k) {
                return true;
            }
        }
        false
    }
}

fn colour_at(colours: &[bool], node: u32) -> bool {
    (node as usize) < colours.len() && colours[node as usize]
}

/// Whether the colours break an edge.
pub fn is_broken(edge: &Edge, colours: &[bool]) -> bool {
    broken(edge, colour_at(colours, edge.a), colour_at(colours, edge.b))
}

/// Adds to each component twice the weights that the colours break.
fn add_costs(parts: &mut Parts, edges: &[Edge], colours: &[bool]) {
    for edge in edges {
        if is_broken(edge, colours) {
            let part = parts.part(edge.a);
            add_at(
                parts.most.as_mut_slice(),
                part,
                edge.weight.saturating_mul(2),
            );
        }
    }
}

/// Adds to each component the half weights of its cycles.
fn add_bounds(parts: &mut Parts, cycles: &[Cycle]) {
    for cycle in cycles {
        let part = parts.part(cycle.walk.start);
        add_at(parts.given.as_mut_slice(), part, cycle.half);
    }
}

/// The components with the bounds of a packing.
pub fn parts_of(
    alloc: Global,
    graph: &Signed,
    colours: &[bool],
    cycles: &[Cycle],
) -> Result<Parts, NoMemory> {
    let (part, count) = components(alloc, graph)?;
    let mut parts = Parts {
        part,
        most: vec![in alloc; 0u64; count as usize]?,
        given: vec![in alloc; 0u64; count as usize]?,
        fresh: vec![in alloc; 0u64; count as usize]?,
    };
    add_costs(&mut parts, graph.edges.as_slice(), colours);
    add_bounds(&mut parts, cycles);
    Ok(parts)
}
