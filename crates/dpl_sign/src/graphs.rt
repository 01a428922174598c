// A graph whose edges ask something of the colours of their ends.
ghost use Rattle.std.specs.Prelude.{◌<◌, ◌^◌, length};
ghost use Rattle.dpl_sign.specs.Kinds.{EndsBelow, BondsFirst};

use crate::edges::Edge;
use crate::graph_tests::is_graph;
use dpl_list::Items;

/// A graph whose edges have kinds and weights. The bonds stand before all other edges.
#[derive(Drop)]
pub struct Signed {
    pub nodes: u32,
    pub edges: Items<Edge>,
    pub ghost few_nodes: { nodes < 2 ^ 31 },
    pub ghost few_edges: { length edges < 2 ^ 30 },
    pub ghost inside: { EndsBelow nodes edges },
    pub ghost bonds_first: { BondsFirst edges },
}

impl Signed {
    ghost use Rattle.std.specs.Prelude.{◌≡◌, ◌↔◌, IsSome, IfSome};
    ghost use Rattle.dpl_sign.specs.Kinds.{IsGraph};

    /// The graph of these edges, if they are those of a graph.
    pub fn new(nodes: u32, edges: Vec<Edge>) -> Option<Signed>
        ensures graph { IsSome result ↔ IsGraph nodes edges.items }
        ensures nodes { IfSome result (λ g. g.nodes ≡ nodes) }
        ensures edges { IfSome result (λ g. g.edges ≡ edges.items) }
    {
        if is_graph(nodes, &edges) {
            let edges = Items::new(edges);
            Some(Signed { nodes, edges })
        } else {
            None
        }
    }
}
