//! The drawing of all edges, for the excess.

ghost use Rattle.std.specs.Prelude.{◌≡◌, ◌≢◌, ℕ, ◌+◌, ◌*◌, ◌<◌, ◌^◌, true, [], ◌∷◌, ◌++◌, length, slice_index, IfOk};
ghost use Rattle.dpl_sign.specs.Drawings.{is_in, dart_count};
ghost use Rattle.dpl_sign.specs.Excess.{all_edges};
ghost use Rattle.dpl_drawing.specs.Faces.{AreFaces};
ghost use Rattle.dpl_drawing.specs.Drawn.{AreLasts, IsAttached, IsInserted};
ghost use Rattle.dpl_drawing.specs.Faces.{drawn_faces};

use crate::nearness::Nearby;
use crate::numbering::{filled, listed, number};
use crate::turning::{NO_DART, next_from};
use dpl_ring::Ring;
use dpl_sign::Net;
use std::alloc::{AllocError, Global};

/// Puts a dart of a new edge before `next` around its node. Where `next` is the dart itself the node
/// has no other, and nothing changes.
fn attach(faces: &mut Ring, dart: u32, next: u32, twin: u32)
    requires dart { dart < length faces.old }
    requires next { next < length faces.old }
    requires twin { twin < length faces.old }
    requires back { slice_index faces.old twin ≡ dart }
    ensures value { IsAttached faces.old dart next twin faces.new }
    ensures length { length faces.new ≡ length faces.old }
{
    if next != dart {
        let into = faces.prev(next);
        faces.splice(into, twin);
    }
}

/// Puts the two darts of an edge before the darts that are next around their nodes.
fn insert(faces: &mut Ring, edge: u32, next: u32, next_twin: u32)
    requires edge { 2 * edge + 1 < length faces.old }
    requires small { length faces.old < 2 ^ 31 }
    requires next { next < length faces.old }
    requires next_twin { next_twin < length faces.old }
    requires alone { slice_index faces.old (2 * edge) ≡ 2 * edge }
    requires alone_twin { slice_index faces.old (2 * edge + 1) ≡ 2 * edge + 1 }
    requires apart { next ≢ 2 * edge + 1 }
    ensures value { IsInserted faces.old edge next next_twin faces.new }
    ensures length { length faces.new ≡ length faces.old }
{
    let dart = 2 * edge;
    let twin = dart + 1;
    faces.splice(dart, twin);
    attach(faces, dart, next, twin);
    attach(faces, twin, next_twin, dart);
}

/// Draws the next edge.
fn add_next(faces: &mut Ring, lasts: &mut [u32], nearby: &mut Nearby, net: &Net, all: &[bool])
    requires edge { length all.now < length net.now.graph.edges }
    requires faces { AreFaces net.now (is_in all.now) faces.old }
    requires lasts { AreLasts net.now (is_in all.now) lasts.old }
    ensures faces { AreFaces net.now (is_in (all.now ++ true ∷ [])) faces.new }
    ensures lasts { AreLasts net.now (is_in (all.now ++ true ∷ [])) lasts.new }
{
    let edge = all.len() as u32;
    let (dart, twin) = (2 * edge, 2 * edge + 1);
    let ends = net.graph.edges.as_slice()[edge as usize];
    let last = lasts[ends.a as usize];
    let next = next_from(faces, net, all, dart, last, nearby);
    let last_twin = lasts[ends.b as usize];
    let next_twin = next_from(faces, net, all, twin, last_twin, nearby);
    insert(faces, edge, next, next_twin);
    lasts[ends.a as usize] = dart;
    lasts[ends.b as usize] = twin;
    nearby.note(dart, dart);
    nearby.note(twin, twin);
}

/// How many faces with darts the drawing of all edges has.
pub fn count_faces(alloc: Global, net: &Net, nearby: &mut Nearby) -> Result<u32, AllocError>
    ensures { IfOk result (λ n. n ≡ drawn_faces net.now all_edges) }
{
    let darts = 2 * net.graph.edges.as_slice().len() as u32;
    let mut faces = Ring::new(alloc, darts)?;
    let mut lasts = filled(alloc, net.graph.nodes as usize, NO_DART)?;
    let mut all = Vec::new(alloc);
    for _edge in 0..darts / 2 {
        add_next(&mut faces, &mut lasts, nearby, net, &all);
        all.push(true)?;
    }
    let corners = listed(alloc, &faces, darts)?;
    let numbered = number(alloc, &corners, &all)?;
    Ok(numbered.count)
}
