//! Darts from which a search around a node may start.

use crate::numbering::filled;
use crate::turning::NO_DART;
use dpl_sign::{Net, Port};
use std::alloc::{AllocError, Global};

const BLOCK: u32 = 64;

const WIDE_BLOCK: u32 = 4096;

const STEEPEST: u128 = 1 << 60;

/// Kept darts near places around nodes with many. They serve for speed alone: each is tested where
/// it is used, and nothing is proved of them.
#[derive(Drop)]
pub struct Nearby {
    // The place of each dart of a node with many. Those of a node follow one another in the order of
    // their ports.
    places: Vec<u32>,
    // The kept dart met last near a place of each block, and of each wide block.
    blocks: Vec<u32>,
    wide_blocks: Vec<u32>,
}

/// What the darts of a node with many are sorted by.
#[derive(Clone, Copy)]
struct Spot {
    node: u32,
    side: u8,
    key: i64,
    slope: u128,
    dart: u32,
}

/// A number that rises with a direction at a corner. Directions that hardly differ may share it.
fn slope(rise: u64, run: u64) -> u128 {
    u128::from(rise) * STEEPEST / (u128::from(rise) + u128::from(run) + 1)
}

fn spot_of(node: u32, port: &Port, dart: u32) -> Spot {
    let slope = if port.side % 4 == 0 {
        slope(port.dy, port.dx)
    } else {
        slope(port.dx, port.dy)
    };
    let (side, key) = (port.side, port.key);
    Spot {
        node,
        side,
        key,
        slope,
        dart,
    }
}

fn put(list: &mut [u32], place: u32, value: u32) {
    if (place as usize) < list.len() {
        list[place as usize] = value;
    }
}

fn read(list: &[u32], place: u32) -> u32 {
    list.get(place as usize).copied().unwrap_or(NO_DART)
}

/// Raises a number of a list by one.
fn raise(list: &mut [u32], place: u32) {
    let number = read(list, place);
    put(list, place, number.wrapping_add(1));
}

/// How many darts each node has.
fn counts(alloc: Global, net: &Net) -> Result<Vec<u32>, AllocError> {
    let mut counts = filled(alloc, net.graph.nodes as usize, 0)?;
    for edge in 0..net.graph.edges.as_slice().len() {
        let ends = net.graph.edges.as_slice()[edge];
        raise(&mut counts, ends.a);
        raise(&mut counts, ends.b);
    }
    Ok(counts)
}

fn is_crowded(counts: &[u32], node: u32) -> bool {
    read(counts, node) > BLOCK
}

/// The darts of the nodes with many, in the order of their ports.
fn crowded(alloc: Global, net: &Net) -> Result<Vec<Spot>, AllocError> {
    let counts = counts(alloc, net)?;
    let mut spots = Vec::new(alloc);
    for edge in 0..net.graph.edges.as_slice().len() as u32 {
        let ends = net.graph.edges.as_slice()[edge as usize];
        if is_crowded(&counts, ends.a) {
            let port = net.ports.as_slice()[edge as usize].0;
            spots.push(spot_of(ends.a, &port, 2 * edge))?;
        }
        if is_crowded(&counts, ends.b) {
            let port = net.ports.as_slice()[edge as usize].1;
            spots.push(spot_of(ends.b, &port, 2 * edge + 1))?;
        }
    }
    spots.sort_unstable_by_key(|s| ((s.node, s.side), (s.key, (s.slope, s.dart))));
    Ok(spots)
}

/// The places of darts among these; none where there are no such darts.
fn places(alloc: Global, spots: &[Spot], darts: usize) -> Result<Vec<u32>, AllocError> {
    if spots.is_empty() {
        return Ok(Vec::new(alloc));
    }
    let mut places = filled(alloc, darts, NO_DART)?;
    let mut place: u32 = 0;
    for spot in spots {
        put(&mut places, spot.dart, place);
        place = place.wrapping_add(1);
    }
    Ok(places)
}

impl Nearby {
    /// No dart is kept.
    pub fn new(alloc: Global, net: &Net) -> Result<Nearby, AllocError> {
        let spots = crowded(alloc, net)?;
        let places = places(alloc, &spots, 2 * net.graph.edges.as_slice().len())?;
        let blocks = filled(alloc, spots.len().div_ceil(BLOCK as usize), NO_DART)?;
        let wide_blocks = filled(alloc, spots.len().div_ceil(WIDE_BLOCK as usize), NO_DART)?;
        Ok(Nearby {
            places,
            blocks,
            wide_blocks,
        })
    }

    /// What was noted last in the block of a dart.
    pub fn in_block(&self, dart: u32) -> u32 {
        read(&self.blocks, read(&self.places, dart) / BLOCK)
    }

    /// What was noted last in the wide block of a dart.
    pub fn in_wide_block(&self, dart: u32) -> u32 {
        read(&self.wide_blocks, read(&self.places, dart) / WIDE_BLOCK)
    }

    /// Near a dart stands this kept one, which may be the dart itself.
    pub fn note(&mut self, dart: u32, near: u32) {
        let place = read(&self.places, dart);
        put(&mut self.blocks, place / BLOCK, near);
        put(&mut self.wide_blocks, place / WIDE_BLOCK, near);
    }
}
