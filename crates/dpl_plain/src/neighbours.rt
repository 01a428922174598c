// Faces on the two sides of a stitch or a clash, and chains of such faces.
ghost use Rattle.std.specs.Prelude.{◌↔◌, ◌<◌, length, IfOk, IsTrue};
ghost use Rattle.dpl_sign.specs.Drawings.{is_in as in_set};
ghost use Rattle.dpl_sign.specs.Parity.{Separates, AreAdjacentFaces, IsFacePath};

use crate::parity::{face_name, is_crossable};
use dpl_sign::Net;
use std::alloc::{AllocError, Global};

/// Whether an edge is a stitch or a clash of the set with one of two faces on each side.
fn separates(
    alloc: Global,
    net: &Net,
    set: &[bool],
    edge: u32,
    f: u32,
    g: u32,
) -> Result<bool, AllocError>
    requires { edge < length net.now.graph.edges }
    ensures { IfOk result (λ b. IsTrue b ↔ Separates net.now (in_set set.now) edge f g) }
{
    let crossed = is_crossable(net, set, edge);
    let there = face_name(alloc, net, set, 2 * edge)?;
    let back = face_name(alloc, net, set, 2 * edge + 1)?;
    let forth = (there == f) & (back == g);
    let other = (there == g) & (back == f);
    Ok(crossed & (forth | other))
}

/// Whether a stitch or a clash of the set has one of two faces on each side.
pub fn are_neighbours(
    alloc: Global,
    net: &Net,
    set: &[bool],
    f: u32,
    g: u32,
) -> Result<bool, AllocError>
    ensures { IfOk result (λ b. IsTrue b ↔ AreAdjacentFaces net.now (in_set set.now) f g) }
{
    for edge in 0..net.graph.edges.as_slice().len() as u32 {
        if separates(alloc, net, set, edge, f, g)? {
            return Ok(true);
        }
    }
    Ok(false)
}

/// Whether faces lead from one to another, each a neighbour of the one before.
pub fn leads(
    alloc: Global,
    net: &Net,
    set: &[bool],
    f: u32,
    faces: &[u32],
    g: u32,
) -> Result<bool, AllocError>
    ensures { IfOk result (λ b. IsTrue b ↔ IsFacePath net.now (in_set set.now) f faces.now g) }
{
    let mut here = f;
    for next in faces {
        if !are_neighbours(alloc, net, set, here, *next)? {
            return Ok(false);
        }
        here = *next;
    }
    Ok(here == g)
}
