// The edges between pieces, their loads and how long that makes them. Nothing here stands in a contract.

use crate::parting::{add_at, is_broken, number_at};
use crate::trees::Trees;
use dpl_sign::{Cycle, Edge, Signed};
use std::alloc::{AllocError as NoMemory, Global};

/// What an edge of weight 1 that carries nothing is long.
const UNIT: u64 = 1 << 24;

/// The length of an edge that may carry no more.
const FULL: u64 = 1 << 60;

/// The pieces that an edge joins, whether it is a clash, and whether the colours break it.
#[derive(Clone, Copy, Debug)]
pub struct Street {
    pub p: u32,
    pub q: u32,
    pub is_clash: bool,
    pub is_broken: bool,
}

impl Street {
    /// The other piece.
    pub fn other(self, piece: u32) -> u32 {
        if self.p == piece { self.q } else { self.p }
    }
}

/// The edges with the pieces that they join, their loads and lengths.
#[derive(Drop)]
pub struct Streets<'a> {
    edges: &'a [Edge],
    streets: Vec<Street>,
    loads: Vec<u64>,
    lengths: Vec<u64>,
    /// How often a walk passes each edge while it is looked at, and else 0.
    times: Vec<u64>,
}

/// What an edge may carry at most. A bond carries nothing.
fn limit_of(edge: &Edge) -> u64 {
    edge.weight.saturating_mul(2)
}

/// The power of 2 with this exponent, up to 16.
fn power(exponent: u64) -> u64 {
    match exponent {
        0 => 1,
        1 => 2,
        2 => 4,
        3 => 8,
        _ => 16,
    }
}

/// The length of an edge: the inverse of its limit, doubled with each quarter of it that the edge carries. A bond has none.
fn length_of(limit: u64, load: u64) -> u64 {
    if limit == 0 {
        return 0;
    }
    if limit <= load {
        return FULL;
    }
    let quarters = load.saturating_mul(4);
    let base = UNIT.saturating_mul(power(quarters / limit)) / limit;
    base.saturating_mul(limit.saturating_add(quarters % limit)) / limit
}

/// The lengths of edges that carry so much.
fn lengths_of(alloc: Global, edges: &[Edge], loads: &[u64]) -> Result<Vec<u64>, NoMemory> {
    let mut lengths = Vec::new(alloc);
    for k in 0..edges.len() {
        lengths.push(length_of(limit_of(&edges[k]), number_at(loads, k)))?;
    }
    Ok(lengths)
}

/// What pieces some edges join.
fn streets_of(
    alloc: Global,
    edges: &[Edge],
    trees: &Trees,
    colours: &[bool],
) -> Result<Vec<Street>, NoMemory> {
    let mut streets = Vec::new(alloc);
    for edge in edges {
        streets.push(Street {
            p: trees.piece(edge.a),
            q: trees.piece(edge.b),
            is_clash: edge.kind.is_clash(),
            is_broken: is_broken(edge, colours),
        })?;
    }
    Ok(streets)
}

fn add_walk(loads: &mut [u64], walk: &[u32], half: u64) {
    for e in walk {
        add_at(loads, *e as usize, half);
    }
}

fn clear(times: &mut [u64], walk: &[u32]) {
    for e in walk {
        if (*e as usize) < times.len() {
            times[*e as usize] = 0;
        }
    }
}

impl<'a> Streets<'a> {
    /// The edges of a graph, loaded with some cycles.
    pub fn new(
        alloc: Global,
        graph: &'a Signed,
        trees: &Trees,
        colours: &[bool],
        cycles: &[Cycle],
    ) -> Result<Streets<'a>, NoMemory> {
        let edges = graph.edges.as_slice();
        let mut loads = vec![in alloc; 0u64; edges.len()]?;
        for cycle in cycles {
            add_walk(
                loads.as_mut_slice(),
                cycle.walk.edges.as_slice(),
                cycle.half,
            );
        }
        let lengths = lengths_of(alloc, edges, loads.as_slice())?;
        let streets = streets_of(alloc, edges, trees, colours)?;
        Ok(Streets {
            edges,
            streets,
            loads,
            lengths,
            times: vec![in alloc; 0u64; edges.len()]?,
        })
    }

    /// The pieces that an edge joins.
    pub fn street(&self, e: u32) -> Option<Street> {
        let streets = self.streets.as_slice();
        if (e as usize) < streets.len() {
            Some(streets[e as usize])
        } else {
            None
        }
    }

    /// The piece beyond an edge.
    pub fn other_piece(&self, e: u32, piece: u32) -> u32 {
        match self.street(e) {
            None => piece,
            Some(street) => street.other(piece),
        }
    }

    /// How long an edge is.
    pub fn length(&self, e: u32) -> u64 {
        number_at(self.lengths.as_slice(), e as usize)
    }

    /// What an edge may carry at most.
    pub fn limit(&self, e: u32) -> u64 {
        match self.edges.get(e as usize) {
            None => 0,
            Some(edge) => limit_of(edge),
        }
    }

    /// What an edge may carry more.
    pub fn room(&self, e: u32) -> u64 {
        let load = number_at(self.loads.as_slice(), e as usize);
        self.limit(e).saturating_sub(load)
    }

    /// Whether a walk may pass an edge.
    pub fn is_free(&self, e: u32) -> bool {
        self.length(e) < FULL
    }

    /// The greatest half weight for a walk, up to a most.
    pub fn half_for(&mut self, walk: &[u32], most: u64) -> u64 {
        add_walk(self.times.as_mut_slice(), walk, 1);
        let mut half = most;
        for e in walk {
            if 0 < self.limit(*e) {
                let times = number_at(self.times.as_slice(), *e as usize);
                half = half.min(self.room(*e) / times.max(1));
            }
        }
        clear(self.times.as_mut_slice(), walk);
        half
    }

    /// Loads the edges of a walk.
    pub fn load(&mut self, walk: &[u32], half: u64) {
        add_walk(self.loads.as_mut_slice(), walk, half);
        for e in walk {
            let limit = self.limit(*e);
            let place = *e as usize;
            let load = number_at(self.loads.as_slice(), place);
            if place < self.lengths.len() {
                self.lengths[place] = length_of(limit, load);
            }
        }
    }
}
