// What stands for the nodes and the edges of one net in another.
ghost use Rattle.std.specs.Prelude.{◌≡◌, ◌<◌, ◌^◌, ℕ, length, IsTrue, ◌↔◌, slice_index_or, IfOk};
ghost use Rattle.dpl_cell.specs.Places.{corners_of};
ghost use Rattle.dpl_sign.specs.Drawings.{no_port};
ghost use Rattle.dpl_sign.specs.Kinds.{EndsBelow};
ghost use Rattle.dpl_stay.specs.Order.{AreRectsInOrder, AreEdgesInOrder};
ghost use Rattle.dpl_stay.specs.Pairs.{ArePartners, IsTwinBy, AreTwinsBy};

use crate::finding::{edge_with, key_for, node_at};
use dpl_cell::Rect;
use dpl_sign::{Edge, Net, Port};
use std::alloc::{AllocError as NoMemory, Global};

/// For each rectangle the number of the same one among the others.
pub fn partners(
    alloc: Global,
    rects: &[Rect],
    others: &[Rect],
) -> Result<Vec<Option<u32>>, NoMemory>
    requires order { AreRectsInOrder others.now }
    requires few { length others.now < 2 ^ 32 }
    ensures { IfOk result (λ v. ArePartners rects.now others.now v.items) }
{
    let mut found = Vec::new(alloc);
    for rect in rects {
        found.push(node_at(others, rect))?;
    }
    Ok(found)
}

fn is_one_port(p: &Port, q: &Port) -> bool
    ensures { IsTrue result ↔ p.now ≡ q.now }
{
    p.side == q.side && p.key == q.key && p.dx == q.dx && p.dy == q.dy
}

/// Whether an edge leaves its ends where another does.
fn are_one(ports: &(Port, Port), others: &(Port, Port)) -> bool
    ensures { IsTrue result ↔ ports.now ≡ others.now }
{
    is_one_port(&ports.0, &others.0) && is_one_port(&ports.1, &others.1)
}

/// The edge of the other net that is alike, where the ends of this one have these partners.
fn twin(edge: &Edge, ports: &(Port, Port), partners: &[Option<u32>], other: &Net) -> Option<u32>
    requires order { AreEdgesInOrder other.now.graph.edges }
    requires within { edge.now.b < length partners.now }
    ensures { IsTwinBy partners.now other.now edge.now ports.now result }
{
    let Some(a) = partners[edge.a as usize] else {
        return None;
    };
    let Some(b) = partners[edge.b as usize] else {
        return None;
    };
    let key = key_for(edge.kind, a, b);
    let Some(found) = edge_with(other.graph.edges.as_slice(), &key) else {
        return None;
    };
    if other.graph.edges.as_slice()[found as usize].weight != edge.weight {
        return None;
    }
    if !are_one(ports, &other.ports.as_slice()[found as usize]) {
        return None;
    }
    Some(found)
}

/// For each edge the edge of the other net that is alike.
pub fn twins(
    alloc: Global,
    net: &Net,
    partners: &[Option<u32>],
    other: &Net,
) -> Result<Vec<Option<u32>>, NoMemory>
    requires order { AreEdgesInOrder other.now.graph.edges }
    requires within { length partners.now ≡ net.now.graph.nodes }
    ensures { IfOk result (λ v. AreTwinsBy partners.now net.now other.now v.items) }
{
    let edges = net.graph.edges.as_slice();
    let ports = net.ports.as_slice();
    let mut found = Vec::new(alloc);
    for e in 0..edges.len() {
        found.push(twin(&edges[e], &ports[e], partners, other))?;
    }
    Ok(found)
}
