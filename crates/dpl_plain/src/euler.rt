// The excess of a set of edges: what Euler's formula lacks.
ghost use Rattle.std.specs.Prelude.{◌≡◌, ℕ, ◌<◌, ◌≤◌, true, length, IfOk};
ghost use Rattle.dpl_sign.specs.Drawings.{is_in as in_set};
ghost use Rattle.dpl_sign.specs.Excess.{edge_count as edges_of, excess as excess_of, all_edges};

use crate::components::component_count;
use crate::faces::face_count;
use dpl_sign::{Net, is_in};
use std::alloc::{AllocError, Global};

fn edge_count(net: &Net, set: &[bool]) -> u64
    ensures value { result ≡ edges_of net.now (in_set set.now) }
    ensures range { result ≤ length net.now.graph.edges }
{
    let mut count = 0;
    for edge in 0..net.graph.edges.as_slice().len() as u32 {
        if is_in(set, edge) {
            count += 1;
        }
    }
    count
}

/// How far the drawing of a set of edges is from plane.
pub fn excess(alloc: Global, net: &Net, set: &[bool]) -> Result<u64, AllocError>
    ensures { IfOk result (λ n. n ≡ excess_of net.now (in_set set.now)) }
{
    let components = u64::from(component_count(alloc, &net.graph, set)?);
    let faces = u64::from(face_count(alloc, net, set)?);
    let edges = edge_count(net, set);
    Ok((2 * components + edges).saturating_sub(u64::from(net.graph.nodes) + faces))
}

/// A set with all of so many edges.
fn whole(alloc: Global, edges: usize) -> Result<Vec<bool>, AllocError>
    ensures length { IfOk result (λ v. length v.items ≡ edges) }
    ensures each { IfOk result (λ v. (e : ℕ) → e < edges → in_set v.items e ≡ true) }
{
    let mut set = Vec::new(alloc);
    for _edge in 0..edges {
        set.push(true)?;
    }
    Ok(set)
}

/// How far the whole drawing is from plane.
pub fn total_excess(alloc: Global, net: &Net) -> Result<u64, AllocError>
    ensures { IfOk result (λ n. n ≡ excess_of net.now all_edges) }
{
    let set = whole(alloc, net.graph.edges.as_slice().len())?;
    excess(alloc, net, &set)
}
