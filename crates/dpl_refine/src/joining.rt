// The pieces of a graph, and its components.
ghost use Rattle.std.specs.Prelude.{◌≡◌, ◌<◌, ℕ, All, IfOk};
ghost use Rattle.dpl_refine.specs.Pieces.{bonds_of, ArePieces};
ghost use Rattle.dpl_refine.specs.Components.{ends_of, AreParts};

use dpl_classes::classes;
use dpl_sign::{Edge, Signed};
use std::alloc::{AllocError as NoMemory, Global};

/// The two ends of each bond.
fn bonds(alloc: Global, edges: &[Edge]) -> Result<Vec<(u32, u32)>, NoMemory>
    ensures { IfOk result (λ v. v.items ≡ bonds_of edges.now) }
{
    let mut found = Vec::new(alloc);
    for edge in edges {
        if edge.kind.is_bond() {
            found.push((edge.a, edge.b))?;
        }
    }
    Ok(found)
}

/// The number of each node's piece, and how many pieces there are. Pieces are numbered from 0 in the order of their least
/// nodes.
pub fn pieces(alloc: Global, graph: &Signed) -> Result<(Vec<u32>, u32), NoMemory>
    ensures pieces { IfOk result (λ p. ArePieces graph.now p.0.items p.1) }
    ensures within { IfOk result (λ p. All (λ c. c < p.1) p.0.items) }
{
    let bonds = bonds(alloc, graph.edges.as_slice())?;
    let found = classes(alloc, graph.nodes as usize, bonds.as_slice())?;
    Ok(found)
}

/// The two ends of each edge.
fn ends(alloc: Global, edges: &[Edge]) -> Result<Vec<(u32, u32)>, NoMemory>
    ensures { IfOk result (λ v. v.items ≡ ends_of edges.now) }
{
    let mut found = Vec::new(alloc);
    for edge in edges {
        found.push((edge.a, edge.b))?;
    }
    Ok(found)
}

/// The number of each node's component, and how many components there are.
pub fn components(alloc: Global, graph: &Signed) -> Result<(Vec<u32>, u32), NoMemory>
    ensures components { IfOk result (λ p. AreParts graph.now p.0.items p.1) }
    ensures within { IfOk result (λ p. All (λ c. c < p.1) p.0.items) }
{
    let ends = ends(alloc, graph.edges.as_slice())?;
    let found = classes(alloc, graph.nodes as usize, ends.as_slice())?;
    Ok(found)
}
