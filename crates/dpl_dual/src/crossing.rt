//! The ways between the faces of a map.

ghost use Rattle.std.specs.Prelude.{◌≡◌, ◌<◌, length, IfOk};
ghost use Rattle.dpl_map.specs.Views.{view_of};
ghost use Rattle.dpl_map.specs.Sides.{IsMap};
ghost use Rattle.dpl_dual.specs.Duals.{crosses_below, is_crossable};

use crate::crosses::Cross;
use dpl_map::Map;
use dpl_sign::Signed;
use std::alloc::{AllocError, Global};

/// Whether an edge is a kept stitch or clash.
fn crossable(map: &Map<'_>, graph: &Signed, edge: u32) -> bool
    requires map { IsMap graph.now (view_of map.now) }
    requires inside { edge < length graph.now.edges }
    ensures { result ≡ is_crossable graph.now (view_of map.now) edge }
{
    if !map.kept(edge) {
        return false;
    }
    let at = &graph.edges.as_slice()[edge as usize];
    !at.kind.is_bond()
}

/// The ways between the faces, in the order of the edges.
pub fn crosses(alloc: Global, map: &Map<'_>, graph: &Signed) -> Result<Vec<Cross>, AllocError>
    requires { IsMap graph.now (view_of map.now) }
    ensures { IfOk result (λ v. v.items ≡
        crosses_below graph.now (view_of map.now) (length graph.now.edges)) }
{
    let edges = graph.edges.as_slice();
    let mut found = Vec::new(alloc);
    for i in 0..edges.len() as u32 {
        let edge = &edges[i as usize];
        if crossable(map, graph, i) {
            found.push(Cross {
                f: map.face_of(2 * i),
                g: map.face_of(2 * i + 1),
                edge: i,
                length: 2 * edge.weight,
            })?;
        }
    }
    Ok(found)
}
