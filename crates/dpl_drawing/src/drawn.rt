//! The kept edges of a net, drawn.

ghost use Rattle.std.specs.Prelude.{◌≡◌, ℕ, ◌<◌, ◌≤◌, ◌^◌, length, slice_index, IfOk};
ghost use Rattle.dpl_sign.specs.Drawings.{is_in, dart_count};
ghost use Rattle.dpl_sign.specs.Components.{component_count};
ghost use Rattle.dpl_sign.specs.Excess.{kept_edges, aside_edges, all_edges, excess as excess_of};
ghost use Rattle.dpl_drawing.specs.Faces.{AreFaces, drawn_faces};
ghost use Rattle.dpl_drawing.specs.Drawn.{IsDrawn};

use crate::nearness::Nearby;
use crate::numbering::{listed, number};
use crate::planes::Plane;
use crate::whole::count_faces;
use dpl_sign::Net;
use std::alloc::{AllocError, Global};

/// Which edges of a net are kept and which are set aside, where the darts of the kept ones lead, how
/// many components they have, and the excess over all edges.
#[derive(Drop)]
pub struct Drawing {
    pub kept: Vec<bool>,
    pub aside: Vec<u32>,
    pub corners: Vec<u32>,
    pub components: u32,
    pub excess: u64,
}

/// The kept edges, and their drawing.
#[derive(Drop)]
struct Kept {
    edges: Vec<bool>,
    plane: Plane,
}

/// Goes through the edges of a net in their order.
fn keep(alloc: Global, net: &Net) -> Result<Kept, AllocError>
    ensures kept { IfOk result (λ k. k.edges.items ≡ kept_edges net.now) }
    ensures drawn { IfOk result (λ k. IsDrawn net.now (is_in (kept_edges net.now))
        k.plane.faces.nexts k.plane.parts.nexts k.plane.components) }
{
    let mut plane = Plane::new(alloc, net)?;
    let mut edges = Vec::with_capacity(alloc, net.graph.edges.as_slice().len())?;
    for _edge in 0..net.graph.edges.as_slice().len() as u32 {
        let drawn = plane.add_next(net, &edges);
        edges.push(drawn)?;
    }
    Ok(Kept { edges, plane })
}

/// The numbers of the edges that are not kept, in order.
fn aside_of(alloc: Global, net: &Net, kept: &[bool]) -> Result<Vec<u32>, AllocError>
    requires { kept.now ≡ kept_edges net.now }
    ensures { IfOk result (λ v. v.items ≡ aside_edges net.now) }
{
    let mut aside = Vec::new(alloc);
    for edge in 0..net.graph.edges.as_slice().len() as u32 {
        if !kept[edge as usize] {
            aside.push(edge)?;
        }
    }
    Ok(aside)
}

/// The excess over all edges: each edge set aside adds one, less the faces that it takes.
fn excess_from(net: &Net, aside: &[u32], drawn: u32, whole: u32) -> u64
    requires aside { aside.now ≡ aside_edges net.now }
    requires drawn { drawn ≡ drawn_faces net.now (is_in (kept_edges net.now)) }
    requires whole { whole ≡ drawn_faces net.now all_edges }
    ensures { result ≡ excess_of net.now all_edges }
{
    let edges = net.graph.edges.as_slice().len() as u64;
    let kept = edges - aside.len() as u64;
    edges + u64::from(drawn) - kept - u64::from(whole)
}

/// How many faces with darts the kept edges have.
fn kept_faces(alloc: Global, net: &Net, corners: &[u32], kept: &[bool]) -> Result<u32, AllocError>
    requires corners { AreFaces net.now (is_in (kept_edges net.now)) corners.now }
    requires kept { kept.now ≡ kept_edges net.now }
    ensures { IfOk result (λ n. n ≡ drawn_faces net.now (is_in (kept_edges net.now))) }
{
    let faces = number(alloc, corners, kept)?;
    Ok(faces.count)
}

/// The excess over all edges. Where none is set aside they are the kept ones, which have no excess, and are not drawn
/// again.
fn excess_over(
    alloc: Global,
    net: &Net,
    aside: &[u32],
    corners: &[u32],
    kept: &[bool],
    nearby: &mut Nearby,
) -> Result<u64, AllocError>
    requires aside { aside.now ≡ aside_edges net.now }
    requires corners { AreFaces net.now (is_in (kept_edges net.now)) corners.now }
    requires kept { kept.now ≡ kept_edges net.now }
    ensures { IfOk result (λ n. n ≡ excess_of net.now all_edges) }
{
    if aside.is_empty() {
        return Ok(0);
    }
    let drawn = kept_faces(alloc, net, corners, kept)?;
    let whole = count_faces(alloc, net, nearby)?;
    Ok(excess_from(net, aside, drawn, whole))
}

/// Draws the edges of a net in their order, each of which is kept unless it raises the excess of
/// those kept before it. Near linear, also where the edges around a fragment come in no order.
pub fn draw(alloc: Global, net: &Net) -> Result<Drawing, AllocError>
    ensures kept { IfOk result (λ d. d.kept.items ≡ kept_edges net.now) }
    ensures aside { IfOk result (λ d. d.aside.items ≡ aside_edges net.now) }
    ensures corners { IfOk result (λ d.
        AreFaces net.now (is_in (kept_edges net.now)) d.corners.items) }
    ensures components { IfOk result (λ d.
        d.components ≡ component_count net.now.graph (is_in (kept_edges net.now))) }
    ensures excess { IfOk result (λ d. d.excess ≡ excess_of net.now all_edges) }
{
    let mut drawn = keep(alloc, net)?;
    let darts = 2 * net.graph.edges.as_slice().len() as u32;
    let corners = listed(alloc, drawn.plane.faces.ring(), darts)?;
    let aside = aside_of(alloc, net, &drawn.edges)?;
    let excess = excess_over(
        alloc,
        net,
        &aside,
        &corners,
        &drawn.edges,
        &mut drawn.plane.nearby,
    )?;
    Ok(Drawing {
        kept: drawn.edges,
        aside,
        corners,
        components: drawn.plane.components,
        excess,
    })
}
