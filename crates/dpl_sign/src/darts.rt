// Sets of edges, and the two darts of each edge.
ghost use Rattle.std.specs.Prelude.{◌≡◌, ◌+◌, ◌*◌, ◌^◌, ◌<◌, length};
ghost use Rattle.dpl_sign.specs.Drawings.{dart_count, is_in as in_set, tail_of, twin_of, port_of};

use crate::graphs::Signed;
use crate::nets::Net;
use crate::ports::Port;

/// Whether an edge is in a set.
pub fn is_in(set: &[bool], edge: u32) -> bool
    ensures { result ≡ in_set set.now edge }
{
    set.get(edge as usize).copied().unwrap_or(false)
}

/// The node that a dart leaves.
pub fn tail(graph: &Signed, dart: u32) -> u32
    requires { dart < 2 * length graph.now.edges }
    ensures node { result ≡ tail_of graph.now dart }
    ensures range { result < graph.now.nodes }
{
    let edge = graph.edges.as_slice()[dart as usize / 2];
    if dart % 2 == 0 { edge.a } else { edge.b }
}

/// The other dart of the same edge.
pub fn twin(dart: u32) -> u32
    requires { dart + 1 < 2 ^ 32 }
    ensures { result ≡ twin_of dart }
{
    if dart % 2 == 0 { dart + 1 } else { dart - 1 }
}

/// The port at which a dart leaves its node.
pub fn port(net: &Net, dart: u32) -> Port
    requires { dart < dart_count net.now }
    ensures { result ≡ port_of net.now dart }
{
    let ports = net.ports.as_slice()[dart as usize / 2];
    if dart % 2 == 0 { ports.0 } else { ports.1 }
}
