// The groups of a graph.
ghost use Rattle.std.specs.Prelude.{◌≡◌, ◌≢◌, ◌<◌, [], map, IfOk, OnOk, length};
ghost use Rattle.dpl_groups.specs.Graph.{IsGraph};
ghost use Rattle.dpl_groups.specs.Groups.{AreGroups};
ghost use Rattle.dpl_groups.specs.Walk.{view, IsWalk, StaySeen, AreDone, label_of, is_new_mark};
ghost use Rattle.dpl_groups.specs.declared.walk.Mark.TheVariants as mark;

use crate::walk::{Mark, Walk};
use dpl_list::Items;
use std::alloc::{AllocError, Global};

/// The number of each node's group, and of each group one of its nodes.
#[derive(Drop)]
pub struct Groups {
    pub labels: Items<usize>,
    pub heads: Items<usize>,
}

/// Goes on until nothing is open.
fn finish(walk: &mut Walk, edges: &[Items<usize>]) -> Result<(), AllocError>
    requires graph { IsGraph edges.now }
    requires walk { IsWalk edges.now (view walk.old) }
    ensures walk { OnOk result (IsWalk edges.now (view walk.new)) }
    ensures seen { OnOk result (StaySeen (view walk.old) (view walk.new)) }
    ensures empty { OnOk result (walk.new.stack.items ≡ []) }
{
    'steps: while let Some(place) = walk.top() {
        walk.step(edges, place)?;
    }
    Ok(())
}

fn is_new(mark: Mark) -> bool
    ensures { result ≡ is_new_mark mark }
{
    matches!(mark, Mark::New)
}

/// Goes on from a node, where it is new, until nothing is open.
fn visit(walk: &mut Walk, edges: &[Items<usize>], node: usize) -> Result<(), AllocError>
    requires graph { IsGraph edges.now }
    requires walk { IsWalk edges.now (view walk.old) }
    requires empty { walk.old.stack.items ≡ [] }
    requires node { node < length edges.now }
    ensures walk { OnOk result (IsWalk edges.now (view walk.new)) }
    ensures empty { OnOk result (walk.new.stack.items ≡ []) }
    ensures seen { OnOk result (StaySeen (view walk.old) (view walk.new)) }
    ensures node { OnOk result ((view walk.new).mark node ≢ mark.New) }
{
    if !is_new(walk.marks[node]) {
        return Ok(());
    }
    walk.open(node)?;
    finish(walk, edges)
}

/// Goes over all nodes.
fn walk_all(alloc: Global, edges: &[Items<usize>]) -> Result<Walk, AllocError>
    requires { IsGraph edges.now }
    ensures walk { IfOk result (λ w. IsWalk edges.now (view w)) }
    ensures done { IfOk result (λ w. AreDone w.marks.items) }
{
    let mut walk = Walk::new(alloc, edges)?;
    for node in 0..edges.len() {
        visit(&mut walk, edges, node)?;
    }
    Ok(walk)
}

/// The number of a node's group.
fn label(mark: Mark) -> usize
    ensures { result ≡ label_of mark }
{
    match mark {
        Mark::Done(label) => label,
        Mark::New | Mark::Open(_) => 0,
    }
}

/// The numbers of the nodes' groups.
fn labels(alloc: Global, marks: &[Mark]) -> Result<Vec<usize>, AllocError>
    ensures { IfOk result (λ v. v.items ≡ map label_of marks.now) }
{
    let mut labels = Vec::new(alloc);
    for mark in marks {
        labels.push(label(*mark))?;
    }
    Ok(labels)
}

/// The groups of a graph, whose edges stand for each node in the list of the nodes that they lead to.
///
/// The time grows with the number of nodes and edges.
pub fn find_groups(alloc: Global, edges: &[Items<usize>]) -> Result<Groups, AllocError>
    requires { IsGraph edges.now }
    ensures { IfOk result (λ r. AreGroups edges.now r.labels r.heads) }
{
    let walk = walk_all(alloc, edges)?;
    let labels = labels(alloc, &walk.marks)?;
    Ok(Groups {
        labels: Items::new(labels),
        heads: Items::new(walk.heads),
    })
}
