// What a colouring breaks, and what that costs.
ghost use Rattle.std.specs.Prelude.{◌≡◌, length};
ghost use Rattle.dpl_sign.specs.Colourings.{cost_of, is_broken};

use crate::edges::{Edge, Kind};
use crate::graphs::Signed;

/// Whether the colours of an edge's ends break it.
pub fn broken(edge: &Edge, a: bool, b: bool) -> bool
    ensures { result ≡ is_broken edge.now.kind a b }
{
    match edge.kind {
        Kind::Bond => false,
        Kind::Stitch => a != b,
        Kind::Clash => a == b,
    }
}

/// The sum of the weights of the broken edges.
pub fn cost(graph: &Signed, colours: &[bool]) -> u64
    requires { length colours.now ≡ graph.now.nodes }
    ensures { result ≡ cost_of graph.now colours.now }
{
    let edges = graph.edges.as_slice();
    let mut sum = 0u64;
    for edge in edges {
        if broken(edge, colours[edge.a as usize], colours[edge.b as usize]) {
            sum += edge.weight;
        }
    }
    sum
}
