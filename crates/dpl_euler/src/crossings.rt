//! Where links cross.

ghost use Rattle.std.specs.Prelude.{◌≡◌, ◌<◌, ℕ, ◌^◌, false, length, slice_index, map, All, IfOk, IfSome, Ok, None};
ghost use Rattle.dpl_cell.specs.Places.{corners_of};
ghost use Rattle.dpl_euler.specs.Segments.{ends_of};
ghost use Rattle.dpl_euler.specs.Crossings.{link_at as the_link, IsWith, IsCrossing, HasNoCrossing};
ghost use Rattle.dpl_euler.specs.Tests.{bounds_around, diagonal as the_diagonal, links_cross, crosses_fragment, joins as do_join, IsFound};
ghost use Rattle.dpl_euler.specs.Links.{AreLinks};

use crate::links::{cross, diagonal, link_of, meets_rect};
use crate::segment::Segment;
use crate::types::{Crossing, With};
use dpl_cell::Rect;
use dpl_cuts::types::Fragments;
use dpl_index::{Bounds, Index};
use dpl_sign::{Edge, Net};
use std::alloc::{AllocError, Global};

/// The bounds of a segment.
fn bounds_of(segment: &Segment) -> Bounds
    ensures { result ≡ bounds_around (ends_of segment.now) }
{
    Bounds {
        left: segment.x1.min(segment.x2),
        right: segment.x1.max(segment.x2),
        low: segment.y1.min(segment.y2),
        high: segment.y1.max(segment.y2),
    }
}

/// The bounds of a rectangle in doubled grid units.
fn bounds_of_rect(rect: &Rect) -> Bounds
    ensures { result ≡ bounds_around (the_diagonal (corners_of rect.now)) }
{
    bounds_of(&diagonal(rect))
}

/// The bounds of segments.
fn all_bounds(alloc: Global, segments: &[Segment]) -> Result<Vec<Bounds>, AllocError>
    ensures { IfOk result (λ v. v.items ≡ map (λ s. bounds_around (ends_of s)) segments.now) }
{
    segments.iter().map(bounds_of).collect(alloc)
}

/// The bounds of rectangles in doubled grid units.
fn all_bounds_of_rects(alloc: Global, rects: &[Rect]) -> Result<Vec<Bounds>, AllocError>
    ensures { IfOk result (λ v.
        v.items ≡ map (λ r. bounds_around (the_diagonal (corners_of r))) rects.now) }
{
    rects.iter().map(bounds_of_rect).collect(alloc)
}

/// The link of an edge.
fn link_at(fragments: &Fragments, net: &Net, edge: usize) -> Segment
    requires nodes { net.now.graph.nodes ≡ length fragments.now.rects }
    requires edge { edge < length net.now.graph.edges }
    ensures { ends_of result ≡ the_link fragments.now net.now edge }
{
    let rects = fragments.rects.as_slice();
    let ends = net.graph.edges.as_slice()[edge];
    link_of(&rects[ends.a as usize], &rects[ends.b as usize])
}

/// The links of all edges.
fn links_of(alloc: Global, fragments: &Fragments, net: &Net) -> Result<Vec<Segment>, AllocError>
    requires nodes { net.now.graph.nodes ≡ length fragments.now.rects }
    ensures { IfOk result (λ v. AreLinks fragments.now net.now v.items (length net.now.graph.edges)) }
{
    let mut links = Vec::new(alloc);
    for edge in 0..net.graph.edges.as_slice().len() {
        links.push(link_at(fragments, net, edge))?;
    }
    Ok(links)
}

/// Whether the links of two edges cross.
fn do_cross(fragments: &Fragments, net: &Net, links: &[Segment], edge: usize, other: usize) -> bool
    requires links { AreLinks fragments.now net.now links.now (length net.now.graph.edges) }
    requires edge { edge < length net.now.graph.edges }
    requires other { other < length net.now.graph.edges }
    ensures { result ≡ links_cross fragments.now net.now edge other }
{
    let _of = fragments.rects.as_slice();
    let edges = net.graph.edges.as_slice();
    cross(&edges[edge], &links[edge], &edges[other], &links[other])
}

/// Whether an edge joins a fragment with another.
fn joins(edge: &Edge, fragment: usize) -> bool
    ensures { result ≡ do_join edge.now fragment }
{
    edge.a as usize == fragment || edge.b as usize == fragment
}

/// Whether the link of an edge crosses a third fragment.
fn do_cross_fragment(
    fragments: &Fragments,
    net: &Net,
    links: &[Segment],
    edge: usize,
    fragment: usize,
) -> bool
    requires links { AreLinks fragments.now net.now links.now (length net.now.graph.edges) }
    requires edge { edge < length net.now.graph.edges }
    requires fragment { fragment < length fragments.now.rects }
    ensures { result ≡ crosses_fragment fragments.now net.now edge fragment }
{
    let rect = &fragments.rects.as_slice()[fragment];
    let own = joins(&net.graph.edges.as_slice()[edge], fragment);
    !own && meets_rect(&links[edge], rect)
}

/// The first of some edges that is larger and whose link crosses that of an edge.
fn first_link(
    fragments: &Fragments,
    net: &Net,
    links: &[Segment],
    edge: usize,
    found: &[usize],
) -> Option<u32>
    requires links { AreLinks fragments.now net.now links.now (length net.now.graph.edges) }
    requires edge { edge < length net.now.graph.edges }
    requires found { All (λ d. d < length net.now.graph.edges) found.now }
    ensures some { IfSome result (λ d. IsFound fragments.now net.now edge (With.Link d)) }
    ensures none { result ≡ None → (i : ℕ) → i < length found.now → edge < slice_index found.now i →
        links_cross fragments.now net.now edge (slice_index found.now i) ≡ false }
{
    for i in 0..found.len() {
        let other = found[i];
        if edge < other {
            if do_cross(fragments, net, links, edge, other) {
                return Some(other as u32);
            }
        }
    }
    None
}

/// The first of some fragments that the link of an edge crosses.
fn first_fragment(
    fragments: &Fragments,
    net: &Net,
    links: &[Segment],
    edge: usize,
    found: &[usize],
) -> Option<u32>
    requires few { length fragments.now.rects < 2 ^ 31 }
    requires links { AreLinks fragments.now net.now links.now (length net.now.graph.edges) }
    requires edge { edge < length net.now.graph.edges }
    requires found { All (λ v. v < length fragments.now.rects) found.now }
    ensures some { IfSome result (λ v. IsFound fragments.now net.now edge (With.Fragment v)) }
    ensures none { result ≡ None → (i : ℕ) → i < length found.now →
        crosses_fragment fragments.now net.now edge (slice_index found.now i) ≡ false }
{
    for i in 0..found.len() {
        let fragment = found[i];
        if do_cross_fragment(fragments, net, links, edge, fragment) {
            return Some(fragment as u32);
        }
    }
    None
}

/// Finds links and diagonals of fragments by their bounds.
#[derive(Drop)]
struct Bounded {
    links: Index,
    diagonals: Index,
}

/// What the link of an edge crosses, if it is the link of a larger edge or a third fragment.
fn crossed(
    alloc: Global,
    fragments: &Fragments,
    net: &Net,
    links: &[Segment],
    bounded: &Bounded,
    edge: usize,
) -> Result<Option<With>, AllocError>
    requires nodes { net.now.graph.nodes ≡ length fragments.now.rects }
    requires links { AreLinks fragments.now net.now links.now (length net.now.graph.edges) }
    requires bounded { bounded.now.links ≡ map (λ s. bounds_around (ends_of s)) links.now }
    requires diagonals { bounded.now.diagonals ≡
        map (λ r. bounds_around (the_diagonal (corners_of r))) fragments.now.rects }
    requires edge { edge < length net.now.graph.edges }
    ensures some { IfOk result (λ w. IfSome w (IsWith fragments.now net.now edge)) }
    ensures none { result ≡ Ok None → (w : With) → ¬ IsWith fragments.now net.now edge w }
{
    let window = bounds_of(&links[edge]);
    let found = bounded.links.meeting(alloc, &window)?;
    match first_link(fragments, net, links, edge, found.as_slice()) {
        Some(other) => return Ok(Some(With::Link(other))),
        None => {}
    }
    let also = bounded.diagonals.meeting(alloc, &window)?;
    match first_fragment(fragments, net, links, edge, also.as_slice()) {
        Some(fragment) => Ok(Some(With::Fragment(fragment))),
        None => Ok(None),
    }
}

/// A crossing of the links of a net, if there is one. It looks at the links and fragments alone whose
/// bounds meet, so it is near linear where links are short.
pub fn crossing(
    alloc: Global,
    fragments: &Fragments,
    net: &Net,
) -> Result<Option<Crossing>, AllocError>
    requires nodes { net.now.graph.nodes ≡ length fragments.now.rects }
    ensures some { IfOk result (λ c. IfSome c (IsCrossing fragments.now net.now)) }
    ensures none { result ≡ Ok None → HasNoCrossing fragments.now net.now }
{
    let links = links_of(alloc, fragments, net)?;
    let links = links.as_slice();
    let rects = all_bounds_of_rects(alloc, fragments.rects.as_slice())?;
    let bounded = Bounded {
        links: Index::new(alloc, all_bounds(alloc, links)?)?,
        diagonals: Index::new(alloc, rects)?,
    };
    for edge in 0..links.len() {
        match crossed(alloc, fragments, net, links, &bounded, edge)? {
            Some(other) => {
                let edge = edge as u32;
                return Ok(Some(Crossing { edge, other }));
            }
            None => {}
        }
    }
    Ok(None)
}
