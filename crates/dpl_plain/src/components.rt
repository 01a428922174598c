// The components of a set of edges, by a name for each node.
ghost use Rattle.std.specs.Prelude.{◌≡◌, ◌<◌, ◌≤◌, ◌^◌, length, slice_index, IfOk, EachIndex, if◌then◌else◌};
ghost use Rattle.dpl_cycle.specs.Names.{name_count, join as joined};
ghost use Rattle.dpl_sign.specs.Drawings.{is_in as in_set};
ghost use Rattle.dpl_sign.specs.Walks.{edge_at};
ghost use Rattle.dpl_sign.specs.Components.{component_of, component_count as components_of};

use crate::replace::replace;
use dpl_sign::{Signed, is_in};
use std::alloc::{AllocError, Global};

/// The components of two nodes become one.
fn join(names: &mut [u32], a: u32, b: u32)
    requires first { a < length names.old }
    requires second { b < length names.old }
    ensures { EachIndex names.new (λ v. slice_index names.new v
        ≡ joined (slice_index names.old) a b v) }
{
    let (name, other) = (names[a as usize], names[b as usize]);
    replace(names, other, name);
}

/// The components with one edge more, if it is in the set.
fn add_edge(names: &mut [u32], graph: &Signed, set: &[bool], number: u32)
    requires nodes { length names.old ≡ graph.now.nodes }
    requires edge { number < length graph.now.edges }
    ensures { EachIndex names.new (λ v. slice_index names.new v ≡
        (if in_set set.now number
        then joined (slice_index names.old) (edge_at graph.now number).a
        (edge_at graph.now number).b v else slice_index names.old v)) }
{
    let edge = graph.edges.as_slice()[number as usize];
    if is_in(set, number) {
        join(names, edge.a, edge.b);
    }
}

/// The components of the edges of the set, begun with each node alone.
fn add_edges(names: &mut [u32], graph: &Signed, set: &[bool])
    requires nodes { length names.old ≡ graph.now.nodes }
    requires alone { EachIndex names.old (λ v. slice_index names.old v ≡ v) }
    ensures { EachIndex names.new (λ v. slice_index names.new v
        ≡ component_of graph.now (in_set set.now) v) }
{
    for number in 0..graph.edges.as_slice().len() as u32 {
        add_edge(names, graph, set, number);
    }
}

/// A name for the component of each node.
fn component_names(alloc: Global, graph: &Signed, set: &[bool]) -> Result<Vec<u32>, AllocError>
    ensures length { IfOk result (λ v. length v.items ≡ graph.now.nodes) }
    ensures each { IfOk result (λ v. EachIndex v.items (λ k.
        slice_index v.items k ≡ component_of graph.now (in_set set.now) k)) }
{
    let mut names = Vec::new(alloc);
    for node in 0..graph.nodes {
        names.push(node)?;
    }
    add_edges(&mut names, graph, set);
    Ok(names)
}

/// How many name themselves.
fn count_names(names: &[u32]) -> u32
    requires { length names.now < 2 ^ 31 }
    ensures value { result ≡ name_count (slice_index names.now) (length names.now) }
    ensures range { result ≤ length names.now }
{
    let mut count = 0;
    for node in 0..names.len() as u32 {
        if names[node as usize] == node {
            count += 1;
        }
    }
    count
}

/// How many components the edges of a set have, each node without one counted too.
pub fn component_count(alloc: Global, graph: &Signed, set: &[bool]) -> Result<u32, AllocError>
    ensures { IfOk result (λ n. n ≡ components_of graph.now (in_set set.now)) }
{
    let names = component_names(alloc, graph, set)?;
    Ok(count_names(&names))
}
