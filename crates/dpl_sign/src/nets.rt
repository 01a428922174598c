// A graph that is drawn in the plane.
ghost use Rattle.std.specs.Prelude.{◌≡◌, ◌<◌, length, All};

use crate::edges::Edge;
use crate::graphs::Signed;
use crate::ports::Port;
use dpl_list::Items;

/// A graph drawn in the plane: for each edge the ports at which it leaves `a` and `b`. Besides,
/// for each node its piece.
#[derive(Drop)]
pub struct Net {
    pub graph: Signed,
    pub ports: Items<(Port, Port)>,
    pub pieces: Items<u32>,
    pub piece_count: u32,
    pub ghost ports_per_edge: { length ports ≡ length graph.edges },
    pub ghost piece_per_node: { length pieces ≡ graph.nodes },
    pub ghost piece_numbers: { All (λ p. p < piece_count) pieces },
}

impl Net {
    ghost use Rattle.std.specs.Prelude.{◌↔◌, IsSome, IfSome};
    ghost use Rattle.dpl_sign.specs.Kinds.{IsGraph};
    ghost use Rattle.dpl_sign.specs.Pieces.{FitGraph};

    /// The drawing of a graph at these ports, if there is one pair for each edge, and one of the
    /// pieces for each node.
    pub fn new(
        graph: Signed,
        ports: Vec<(Port, Port)>,
        pieces: Vec<u32>,
        piece_count: u32,
    ) -> Option<Net>
        ensures net { IsSome result ↔
            FitGraph graph.nodes (length graph.edges) (length ports.items) pieces.items
            piece_count }
        ensures graph { IfSome result (λ n. n.graph ≡ graph) }
        ensures ports { IfSome result (λ n. n.ports ≡ ports.items) }
        ensures pieces { IfSome result (λ n. (n.pieces ≡ pieces.items) ×
            (n.piece_count ≡ piece_count)) }
    {
        let per_edge = ports.len() == graph.edges.as_slice().len();
        let per_node = pieces.len() == graph.nodes as usize;
        let numbers = pieces.iter().all(|piece| *piece < piece_count);
        if per_edge && per_node && numbers {
            let ports = Items::new(ports);
            let pieces = Items::new(pieces);
            Some(Net {
                graph,
                ports,
                pieces,
                piece_count,
            })
        } else {
            None
        }
    }

    /// The same of edges and ports that are known to fit.
    pub fn assembled(
        nodes: u32,
        edges: Vec<Edge>,
        ports: Vec<(Port, Port)>,
        pieces: Vec<u32>,
        piece_count: u32,
    ) -> Net
        requires graph { IsGraph nodes edges.items }
        requires net { FitGraph nodes (length edges.items) (length ports.items) pieces.items
            piece_count }
        ensures nodes { result.graph.nodes ≡ nodes }
        ensures edges { result.graph.edges ≡ edges.items }
        ensures ports { result.ports ≡ ports.items }
        ensures pieces { result.pieces ≡ pieces.items }
        ensures count { result.piece_count ≡ piece_count }
    {
        let edges = Items::new(edges);
        let graph = Signed { nodes, edges };
        let ports = Items::new(ports);
        let pieces = Items::new(pieces);
        Net {
            graph,
            ports,
            pieces,
            piece_count,
        }
    }
}
