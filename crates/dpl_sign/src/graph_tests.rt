// Which nodes and edges make a graph.
ghost use Rattle.std.specs.Prelude.{◌≡◌, ◌↔◌, IsTrue};
ghost use Rattle.dpl_sign.specs.Kinds.{IsGraph, EndsBelow, BondsFirst};

use crate::edges::Edge;

fn are_below(nodes: u32, edges: &[Edge]) -> bool
    ensures { IsTrue result ↔ EndsBelow nodes edges.now }
{
    edges.iter().all(|edge| edge.b < nodes)
}

/// Whether only bonds stand before a bond.
fn are_bonds_first(edges: &[Edge]) -> bool
    ensures { IsTrue result ↔ BondsFirst edges.now }
{
    for next in 1..edges.len() {
        let here = edges[next].kind.is_bond();
        let before = edges[next - 1].kind.is_bond();
        if here && !before {
            return false;
        }
    }
    true
}

/// Whether nodes and edges are those of a graph.
pub fn is_graph(nodes: u32, edges: &[Edge]) -> bool
    ensures { IsTrue result ↔ IsGraph nodes edges.now }
{
    let few_nodes = nodes < 1 << 31;
    let few_edges = edges.len() < 1 << 30;
    let inside = are_below(nodes, edges);
    let first = are_bonds_first(edges);
    few_nodes & few_edges & inside & first
}
