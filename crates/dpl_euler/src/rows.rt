//! The edges of a set at each node.

ghost use Rattle.std.specs.Prelude.{◌≡◌, ◌<◌, length, slice_index_or, ◌++◌, ◌∷◌, [], OnOk, IfOk};
ghost use Rattle.dpl_euler.specs.Searches.{AreRows};
ghost use Rattle.dpl_euler.specs.Rows.{AreListed};

use dpl_list::Grouped;
use dpl_sign::{Signed, is_in};
use std::alloc::{AllocError, Global};

/// Puts a node and an edge at it at the ends of two lists.
fn add(nodes: &mut Vec<u32>, edges: &mut Vec<u32>, node: u32, edge: u32) -> Result<(), AllocError>
    ensures nodes { OnOk result (nodes.new.items ≡ nodes.old.items ++ node ∷ []) }
    ensures edges { OnOk result (edges.new.items ≡ edges.old.items ++ edge ∷ []) }
{
    nodes.push(node)?;
    edges.push(edge)?;
    Ok(())
}

/// The row of a node.
pub fn row_at(rows: &Grouped<u32>, node: u32) -> &[u32]
    requires { node < length rows.now }
    ensures { result.now ≡ slice_index_or rows.now node [] }
{
    rows.row(node as usize)
}

/// Lists each edge of a set at its two ends.
fn add_all(
    nodes: &mut Vec<u32>,
    edges: &mut Vec<u32>,
    graph: &Signed,
    set: &[bool],
) -> Result<(), AllocError>
    requires no_nodes { nodes.old.items ≡ [] }
    requires no_edges { edges.old.items ≡ [] }
    ensures { OnOk result (AreListed graph.now set.now (length graph.now.edges) nodes.new.items
        edges.new.items) }
{
    for edge in 0..graph.edges.as_slice().len() as u32 {
        if is_in(set, edge) {
            let ends = graph.edges.as_slice()[edge as usize];
            add(nodes, edges, ends.a, edge)?;
            add(nodes, edges, ends.b, edge)?;
        }
    }
    Ok(())
}

/// For each node the edges of a set at it.
pub fn rows_of(alloc: Global, graph: &Signed, set: &[bool]) -> Result<Grouped<u32>, AllocError>
    ensures { IfOk result (λ v. AreRows graph.now set.now v) }
{
    let mut nodes = Vec::new(alloc);
    let mut edges = Vec::new(alloc);
    add_all(&mut nodes, &mut edges, graph, set)?;
    Grouped::by_key(alloc, graph.nodes, &nodes, &edges)
}
