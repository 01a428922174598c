// Nodes by their rectangles and edges by their ends.
ghost use Rattle.std.specs.Prelude.{◌≡◌, ◌<◌, ◌↔◌, ◌^◌, length, IsTrue};
ghost use Rattle.dpl_cell.specs.Places.{corners_of};
ghost use Rattle.dpl_stay.specs.Order.{rect_before, AreRectsInOrder, rank_of, key_of, key_before, AreEdgesInOrder};
ghost use Rattle.dpl_stay.specs.Pairs.{IsNodeAt, IsEdgeWith};

use dpl_cell::Rect;
use dpl_sign::{Edge, Kind};

fn is_before(a: &Rect, b: &Rect) -> bool
    ensures { result ≡ rect_before (corners_of a.now) (corners_of b.now) }
{
    if a.y1 < b.y1 {
        return true;
    }
    if b.y1 < a.y1 {
        return false;
    }
    a.x1 < b.x1
}

/// Whether two rectangles are the same.
fn are_equal(a: &Rect, b: &Rect) -> bool
    ensures { IsTrue result ↔ corners_of a.now ≡ corners_of b.now }
{
    a.x1 == b.x1 && a.y1 == b.y1 && a.x2 == b.x2 && a.y2 == b.y2
}

/// The number of the node with this rectangle.
pub fn node_at(rects: &[Rect], rect: &Rect) -> Option<u32>
    requires order { AreRectsInOrder rects.now }
    requires few { length rects.now < 2 ^ 32 }
    ensures { IsNodeAt rects.now (corners_of rect.now) result }
{
    let place = rects.partition_point(|other| is_before(other, rect));
    if place >= rects.len() {
        return None;
    }
    if !are_equal(&rects[place], rect) {
        return None;
    }
    Some(place as u32)
}

fn rank(kind: Kind) -> u8
    ensures { result ≡ rank_of kind }
{
    match kind {
        Kind::Bond => 0,
        Kind::Stitch => 1,
        Kind::Clash => 2,
    }
}

/// What an edge is looked for by: its kind and its ends.
#[derive(Clone, Copy, Debug)]
pub struct Key {
    pub rank: u8,
    pub a: u32,
    pub b: u32,
}

/// The key of an edge of this kind between these ends.
pub fn key_for(kind: Kind, a: u32, b: u32) -> Key
    ensures { result ≡ record { rank = rank_of kind; a = a; b = b } }
{
    Key {
        rank: rank(kind),
        a,
        b,
    }
}

fn comes_before(edge: &Edge, wanted: &Key) -> bool
    ensures { result ≡ key_before (key_of edge.now) wanted.now }
{
    let rank = rank(edge.kind);
    if rank < wanted.rank {
        return true;
    }
    if wanted.rank < rank {
        return false;
    }
    if edge.a < wanted.a {
        return true;
    }
    if wanted.a < edge.a {
        return false;
    }
    edge.b < wanted.b
}

/// Whether the edge has this key.
fn has_key(edge: &Edge, wanted: &Key) -> bool
    ensures { IsTrue result ↔ key_of edge.now ≡ wanted.now }
{
    rank(edge.kind) == wanted.rank && edge.a == wanted.a && edge.b == wanted.b
}

/// The number of the edge with this key.
pub fn edge_with(edges: &[Edge], wanted: &Key) -> Option<u32>
    requires order { AreEdgesInOrder edges.now }
    requires few { length edges.now < 2 ^ 32 }
    ensures { IsEdgeWith edges.now wanted.now result }
{
    let place = edges.partition_point(|edge| comes_before(edge, wanted));
    if place >= edges.len() {
        return None;
    }
    if !has_key(&edges[place], wanted) {
        return None;
    }
    Some(place as u32)
}
