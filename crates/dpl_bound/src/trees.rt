// A tree over the bonds of each piece, and the ways in it. Nothing here stands in a contract: it only spells out walks that are
// looked at again before they are taken.

use dpl_list::Grouped;
use dpl_refine::{pieces, push_end};
use dpl_sign::{Edge, Signed};
use std::alloc::{AllocError as NoMemory, Global};

/// How a node hangs below another: over which bond, and how deep. The top of a piece has the depth 1, a node that is not met
/// yet the depth 0.
#[derive(Clone, Copy, Debug)]
struct Twig {
    bond: u32,
    above: u32,
    depth: u32,
}

/// The piece of each node, how many pieces there are, and a tree for each.
#[derive(Drop)]
pub struct Trees {
    pub count: u32,
    piece: Vec<u32>,
    twigs: Vec<Twig>,
}

/// The least node of each piece, where pieces are numbered in their order.
fn tops(alloc: Global, piece: &[u32]) -> Result<Vec<u32>, NoMemory> {
    let mut found = Vec::new(alloc);
    let mut node = 0u32;
    for p in piece {
        if *p as usize == found.len() {
            found.push(node)?;
        }
        node = node.wrapping_add(1);
    }
    Ok(found)
}

/// The numbers of the bonds at each node.
fn bonds_at(alloc: Global, graph: &Signed) -> Result<Grouped<u32>, NoMemory> {
    let mut keys = Vec::new(alloc);
    let mut items = Vec::new(alloc);
    let mut next = 0u32;
    for edge in graph.edges.as_slice() {
        if edge.kind.is_bond() {
            push_end(&mut keys, &mut items, edge.a, next, graph.nodes)?;
            push_end(&mut keys, &mut items, edge.b, next, graph.nodes)?;
        }
        next = next.wrapping_add(1);
    }
    let rows = Grouped::by_key(alloc, graph.nodes, keys.as_slice(), items.as_slice())?;
    Ok(rows)
}

fn row_of(rows: &Grouped<u32>, node: u32) -> &[u32] {
    if (node as usize) < rows.len() {
        rows.row(node as usize)
    } else {
        &[]
    }
}

fn twig_at(twigs: &[Twig], node: u32) -> Twig {
    if (node as usize) < twigs.len() {
        twigs[node as usize]
    } else {
        Twig {
            bond: 0,
            above: node,
            depth: 1,
        }
    }
}

fn set_twig(twigs: &mut [Twig], node: u32, twig: Twig) {
    if (node as usize) < twigs.len() {
        twigs[node as usize] = twig;
    }
}

/// The other end of an edge.
pub fn other_end(edge: &Edge, node: u32) -> u32 {
    if edge.a == node { edge.b } else { edge.a }
}

/// Hangs what is not met yet below a node, over some bonds.
fn hang(
    twigs: &mut [Twig],
    waiting: &mut Vec<u32>,
    edges: &[Edge],
    row: &[u32],
    above: u32,
) -> Result<(), NoMemory> {
    let depth = twig_at(twigs, above).depth.wrapping_add(1);
    for bond in row {
        let bond = *bond;
        let Some(edge) = edges.get(bond as usize) else {
            continue;
        };
        let node = other_end(edge, above);
        if twig_at(twigs, node).depth == 0 {
            set_twig(twigs, node, Twig { bond, above, depth });
            waiting.push(node)?;
        }
    }
    Ok(())
}

/// The trees that grow from some tops, each node as near to its top as bonds lead.
fn grown(alloc: Global, graph: &Signed, tops: Vec<u32>) -> Result<Vec<Twig>, NoMemory> {
    let nowhere = Twig {
        bond: 0,
        above: 0,
        depth: 0,
    };
    let mut twigs = vec![in alloc; nowhere; graph.nodes as usize]?;
    for top in tops.as_slice() {
        let (bond, above, depth) = (0, *top, 1);
        set_twig(twigs.as_mut_slice(), *top, Twig { bond, above, depth });
    }
    let bonds = bonds_at(alloc, graph)?;
    let edges = graph.edges.as_slice();
    let mut waiting = tops;
    for k in 0..graph.nodes as usize {
        if waiting.len() <= k {
            break;
        }
        let node = waiting[k];
        let row = row_of(&bonds, node);
        hang(twigs.as_mut_slice(), &mut waiting, edges, row, node)?;
    }
    Ok(twigs)
}

impl Trees {
    /// The pieces of a graph, with a tree for each.
    pub fn new(alloc: Global, graph: &Signed) -> Result<Trees, NoMemory> {
        let (piece, count) = pieces(alloc, graph)?;
        let tops = tops(alloc, piece.as_slice())?;
        let twigs = grown(alloc, graph, tops)?;
        Ok(Trees {
            count,
            piece,
            twigs,
        })
    }

    /// The piece of a node.
    pub fn piece(&self, node: u32) -> u32 {
        let piece = self.piece.as_slice();
        if (node as usize) < piece.len() {
            piece[node as usize]
        } else {
            self.count
        }
    }

    /// The end of an edge that lies in a piece: the first where both do.
    pub fn end_in(&self, edge: &Edge, piece: u32) -> u32 {
        if self.piece(edge.a) == piece {
            edge.a
        } else {
            edge.b
        }
    }

    /// Adds the bonds of the way from one node to another of its piece.
    pub fn lead(
        &self,
        alloc: Global,
        from: u32,
        to: u32,
        edges: &mut Vec<u32>,
    ) -> Result<(), NoMemory> {
        let twigs = self.twigs.as_slice();
        let mut back = Vec::new(alloc);
        let mut here = from;
        let mut there = to;
        for _step in 0..twigs.len().saturating_mul(2) {
            if here == there {
                break;
            }
            let low = twig_at(twigs, here);
            let high = twig_at(twigs, there);
            if low.depth <= 1 && high.depth <= 1 {
                break;
            }
            if high.depth <= low.depth {
                edges.push(low.bond)?;
                here = low.above;
            } else {
                back.push(high.bond)?;
                there = high.above;
            }
        }
        back.as_mut_slice().reverse();
        edges.extend_from_slice(back.as_slice())?;
        Ok(())
    }
}
