// The faces of a set of edges: the cycles of the face rule, and one for each bare node.
ghost use Rattle.std.specs.Prelude.{◌≡◌, ◌≤◌, ◌<◌, length, slice_index, IfOk, EachIndex};
ghost use Rattle.dpl_sign.specs.Drawings.{dart_count, is_in as in_set, next_in_face as next_of_face, is_met_below, is_bare as bare, bare_count as bare_nodes, face_count as faces_of};

use crate::cycles::count_cycles;
use dpl_sign::{Net, Signed, is_in, next_around, twin};
use std::alloc::{AllocError, Global};

/// The next dart of a face.
pub fn next_in_face(net: &Net, set: &[bool], dart: u32) -> u32
    requires { dart < dart_count net.now }
    ensures value { result ≡ next_of_face net.now (in_set set.now) dart }
    ensures range { result < dart_count net.now }
{
    if is_in(set, dart / 2) {
        next_around(net, set, twin(dart))
    } else {
        dart
    }
}

/// What each dart leads to in its face.
pub fn successors(alloc: Global, net: &Net, set: &[bool]) -> Result<Vec<u32>, AllocError>
    ensures length { IfOk result (λ v. length v.items ≡ dart_count net.now) }
    ensures each { IfOk result (λ v. EachIndex v.items (λ d.
        slice_index v.items d ≡ next_of_face net.now (in_set set.now) d)) }
{
    let mut nexts = Vec::new(alloc);
    for dart in 0..2 * net.graph.edges.as_slice().len() as u32 {
        nexts.push(next_in_face(net, set, dart))?;
    }
    Ok(nexts)
}

/// Whether no edge of the set ends at a node.
fn is_bare(graph: &Signed, set: &[bool], node: u32) -> bool
    ensures { result ≡ bare graph.now (in_set set.now) node }
{
    let mut met = false;
    for number in 0..graph.edges.as_slice().len() as u32 {
        let edge = graph.edges.as_slice()[number as usize];
        let ends = edge.a == node || edge.b == node;
        let here = is_in(set, number) && ends;
        met = here || met;
    }
    !met
}

fn bare_count(graph: &Signed, set: &[bool]) -> u32
    ensures value { result ≡ bare_nodes graph.now (in_set set.now) }
    ensures range { result ≤ graph.now.nodes }
{
    let mut count = 0;
    for node in 0..graph.nodes {
        if is_bare(graph, set, node) {
            count += 1;
        }
    }
    count
}

/// How many faces a set of edges has. A node without an edge of the set has one of its own.
pub fn face_count(alloc: Global, net: &Net, set: &[bool]) -> Result<u32, AllocError>
    ensures { IfOk result (λ n. n ≡ faces_of net.now (in_set set.now)) }
{
    let mut nexts = successors(alloc, net, set)?;
    let cycles = count_cycles(&mut nexts, set);
    Ok(cycles + bare_count(&net.graph, set))
}
