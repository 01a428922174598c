// Which walks are odd walks.
ghost use Rattle.std.specs.Prelude.{◌≡◌, ◌⊎◌, true, not, IfSome};
ghost use Rattle.dpl_sign.specs.Colourings.{agree};
ghost use Rattle.dpl_sign.specs.Kinds.{is_clash};
ghost use Rattle.dpl_sign.specs.Walks.{across, leaves, edge_at, IsOddWalk};

use dpl_sign::{Edge, Signed, Walk};

/// The node that a walk has reached, and whether it has passed clashes an odd number of times.
#[derive(Clone, Copy, Debug)]
struct Reached {
    node: u32,
    odd: bool,
}

/// The other end of an edge, if the node is one of its ends.
fn beyond(edge: &Edge, node: u32) -> Option<u32>
    ensures ends { IfSome result (λ v. edge.now.a ≡ node ⊎ edge.now.b ≡ node) }
    ensures node { IfSome result (λ v. v ≡ across edge.now node) }
{
    if edge.a == node {
        return Some(edge.b);
    }
    if edge.b == node {
        return Some(edge.a);
    }
    None
}

/// Where an edge leads on, if it leaves the node.
fn passed(graph: &Signed, e: u32, at: Reached) -> Option<Reached>
    ensures leaves { IfSome result (λ r. leaves graph.now e at.node ≡ true) }
    ensures node { IfSome result (λ r. r.node ≡ across (edge_at graph.now e) at.node) }
    ensures odd { IfSome result (λ r.
        r.odd ≡ not (agree (is_clash (edge_at graph.now e).kind) at.odd)) }
{
    let edges = graph.edges.as_slice();
    if edges.len() <= e as usize {
        return None;
    }
    let edge = &edges[e as usize];
    let Some(node) = beyond(edge, at.node) else {
        return None;
    };
    let odd = edge.kind.is_clash() != at.odd;
    Some(Reached { node, odd })
}

/// Whether a walk is closed and passes clashes an odd number of times.
pub fn is_odd_walk(graph: &Signed, walk: &Walk) -> bool
    ensures { result ≡ true → IsOddWalk graph.now walk.now }
{
    let edges = walk.edges.as_slice();
    let mut at = Reached {
        node: walk.start,
        odd: false,
    };
    for k in 0..edges.len() {
        let Some(next) = passed(graph, edges[k], at) else {
            return false;
        };
        at = next;
    }
    let closed = at.node == walk.start;
    closed && at.odd
}
