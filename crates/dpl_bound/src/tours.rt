// Walks from piece to piece, each kept once: two walks are the same where they pass the same edges one after another, from
// wherever and either way. Nothing here stands in a contract.

use crate::streets::Streets;
use crate::trees::{Trees, other_end};
use dpl_list::Items;
use dpl_sign::{Cycle, Signed, Walk};
use std::alloc::{AllocError as NoMemory, Global};

/// So many tours with the same least edge are looked at at most.
const MOST_LOOKS: usize = 64;

/// So many edges are passed at most by the walks that are spelled out, which bounds the report.
const MOST_PASSED: usize = 1 << 23;

/// A closed walk from a piece over stitches and clashes, its half weight, and one more than the number of the tour before it
/// with the same least edge, or 0.
#[derive(Drop)]
struct Tour {
    piece: u32,
    edges: Vec<u32>,
    half: u64,
    before: usize,
}

/// Tours, and for each edge one more than the number of the last of which it is the least, or 0.
#[derive(Drop)]
pub struct Tours {
    tours: Vec<Tour>,
    last: Vec<usize>,
}

fn edge_at(edges: &[u32], k: usize) -> u32 {
    if k < edges.len() { edges[k] } else { 0 }
}

/// The place of the least edge.
fn least_place(edges: &[u32]) -> usize {
    let mut least = 0;
    for k in 0..edges.len() {
        if edges[k] < edge_at(edges, least) {
            least = k;
        }
    }
    least
}

/// Adds the edges from one place to another.
fn push_stretch(
    found: &mut Vec<u32>,
    edges: &[u32],
    from: usize,
    to: usize,
) -> Result<(), NoMemory> {
    for k in from..to {
        found.push(edge_at(edges, k))?;
    }
    Ok(())
}

/// The same walk from a place on.
fn from_place(alloc: Global, edges: &[u32], place: usize) -> Result<Vec<u32>, NoMemory> {
    let mut found = Vec::new(alloc);
    push_stretch(&mut found, edges, place, edges.len())?;
    push_stretch(&mut found, edges, 0, place)?;
    Ok(found)
}

/// The same walk the other way, with the same first edge.
fn backward(alloc: Global, edges: &[u32]) -> Result<Vec<u32>, NoMemory> {
    let mut found = Vec::new(alloc);
    found.push(edge_at(edges, 0))?;
    for k in 1..edges.len() {
        found.push(edge_at(edges, edges.len() - k))?;
    }
    Ok(found)
}

/// The piece that the first edges of a walk lead to.
fn led_to(streets: &Streets<'_>, edges: &[u32], count: usize, piece: u32) -> u32 {
    let mut at = piece;
    for k in 0..count {
        at = streets.other_piece(edge_at(edges, k), at);
    }
    at
}

fn are_same(one: &[u32], other: &[u32]) -> bool {
    if one.len() != other.len() {
        return false;
    }
    for k in 0..one.len() {
        if one[k] != edge_at(other, k) {
            return false;
        }
    }
    true
}

/// The walk over the edges of a graph, with the bonds inside each piece.
fn spelled(alloc: Global, graph: &Signed, trees: &Trees, tour: &Tour) -> Result<Walk, NoMemory> {
    let all = graph.edges.as_slice();
    let mut edges = Vec::new(alloc);
    let first = edge_at(tour.edges.as_slice(), 0);
    let start = match all.get(first as usize) {
        None => 0,
        Some(edge) => trees.end_in(edge, tour.piece),
    };
    let mut at = start;
    for e in tour.edges.as_slice() {
        let Some(edge) = all.get(*e as usize) else {
            continue;
        };
        let near = trees.end_in(edge, trees.piece(at));
        trees.lead(alloc, at, near, &mut edges)?;
        edges.push(*e)?;
        at = other_end(edge, near);
    }
    trees.lead(alloc, at, start, &mut edges)?;
    let edges = Items::new(edges);
    Ok(Walk { start, edges })
}

impl Tours {
    /// No tours yet, of a graph with so many edges.
    pub fn new(alloc: Global, edges: usize) -> Result<Tours, NoMemory> {
        let last = vec![in alloc; 0usize; edges]?;
        let tours = Vec::new(alloc);
        Ok(Tours { tours, last })
    }

    fn last(&self, e: u32) -> usize {
        if (e as usize) < self.last.len() {
            self.last[e as usize]
        } else {
            0
        }
    }

    /// The number of the tour over these edges, if there is one.
    fn known(&self, edges: &[u32]) -> Option<usize> {
        let tours = self.tours.as_slice();
        let mut at = self.last(edge_at(edges, 0));
        for _look in 0..MOST_LOOKS {
            if at == 0 || tours.len() < at {
                return None;
            }
            let tour = &tours[at - 1];
            if are_same(tour.edges.as_slice(), edges) {
                return Some(at - 1);
            }
            at = tour.before;
        }
        None
    }

    fn put(&mut self, piece: u32, edges: Vec<u32>, half: u64) -> Result<(), NoMemory> {
        if let Some(k) = self.known(edges.as_slice()) {
            if k < self.tours.len() {
                let tour = &mut self.tours[k];
                tour.half = tour.half.saturating_add(half);
            }
            return Ok(());
        }
        let least = edge_at(edges.as_slice(), 0) as usize;
        let before = self.last(least as u32);
        self.tours.push(Tour {
            piece,
            edges,
            half,
            before,
        })?;
        if least < self.last.len() {
            self.last[least] = self.tours.len();
        }
        Ok(())
    }

    /// Takes in a closed walk from a piece: more for the same tour where that is there, else a new one.
    pub fn add(
        &mut self,
        alloc: Global,
        streets: &Streets<'_>,
        piece: u32,
        walk: &[u32],
        half: u64,
    ) -> Result<(), NoMemory> {
        let place = least_place(walk);
        let start = led_to(streets, walk, place, piece);
        let edges = from_place(alloc, walk, place)?;
        let last = edges.len().saturating_sub(1);
        if edge_at(edges.as_slice(), last) < edge_at(edges.as_slice(), 1) {
            let other = led_to(streets, edges.as_slice(), 1, start);
            let turned = backward(alloc, edges.as_slice())?;
            self.put(other, turned, half)?;
        } else {
            self.put(start, edges, half)?;
        }
        Ok(())
    }

    /// The tours as cycles of a graph.
    pub fn cycles(
        &self,
        alloc: Global,
        graph: &Signed,
        trees: &Trees,
    ) -> Result<Vec<Cycle>, NoMemory> {
        let mut found = Vec::new(alloc);
        let mut passed = 0usize;
        for tour in self.tours.as_slice() {
            let walk = spelled(alloc, graph, trees, tour)?;
            passed = passed.saturating_add(walk.edges.as_slice().len());
            if MOST_PASSED < passed {
                break;
            }
            let half = tour.half;
            found.push(Cycle { half, walk })?;
        }
        Ok(found)
    }
}
