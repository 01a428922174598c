//! A walk over the edges of a set from one node to another, by a search breadth first.

ghost use Rattle.std.specs.Prelude.{◌≡◌, ℕ, ◌<◌, true, length, slice_index, slice_index_or, All, IfOk, OnOk, None};
ghost use Rattle.dpl_sign.specs.Walks.{edge_at, across, IsPath};
ghost use Rattle.dpl_sign.specs.Drawings.{is_in};
ghost use Rattle.dpl_sign.specs.Components.{AreJoined};
ghost use Rattle.dpl_euler.specs.Searches.{AreRows, IsAt, AreSteps, AreFollowed, GoesOn, step_at, place_of, is_reached};

use crate::rows::{row_at, rows_of};
use dpl_list::Grouped;
use dpl_sign::Signed;
use std::alloc::{AllocError, Global};

/// A node that a search has reached, with the edge that leads from it back to the node of an earlier
/// step. The first step leads nowhere.
#[derive(Clone, Copy, Debug)]
pub struct Step {
    pub node: u32,
    pub edge: u32,
    pub from: u32,
}

/// A graph, the edges that a search may take, and the node where it begins.
#[derive(Clone, Copy)]
struct Search<'a> {
    graph: &'a Signed,
    set: &'a [bool],
    goal: u32,
}

/// The end of an edge that is not this one.
fn other_end(graph: &Signed, edge: u32, node: u32) -> u32
    requires { edge < length graph.now.edges }
    ensures value { result ≡ across (edge_at graph.now edge) node }
    ensures range { result < graph.now.nodes }
{
    let ends = graph.edges.as_slice()[edge as usize];
    if ends.a == node { ends.b } else { ends.a }
}

/// Follows an edge at the node of a step. The node at its other end is reached by a new step, unless
/// it was reached before.
fn follow(
    search: &Search<'_>,
    place: u32,
    edge: u32,
    steps: &mut Vec<Step>,
    places: &mut [Option<u32>],
) -> Result<(), AllocError>
    requires steps { AreSteps search.now.graph.now search.now.set.now search.now.goal
        steps.old.items places.old }
    requires place { place < length steps.old.items }
    requires edge { IsAt search.now.graph.now search.now.set.now (step_at steps.old.items
        place).node edge }
    ensures steps { OnOk result
        (AreSteps search.now.graph.now search.now.set.now search.now.goal steps.new.items
        places.new) }
    ensures goes_on { OnOk result
        (GoesOn steps.old.items steps.new.items places.old places.new) }
    ensures reached { OnOk result (is_reached places.new
        (across (edge_at search.now.graph.now edge) (step_at steps.old.items place).node) ≡ true) }
{
    let _of = (search.set.len(), search.goal);
    let node = other_end(search.graph, edge, steps[place as usize].node);
    if places[node as usize].is_some() {
        return Ok(());
    }
    let next = steps.len() as u32;
    steps.push(Step {
        node,
        edge,
        from: place,
    })?;
    places[node as usize] = Some(next);
    Ok(())
}

/// Follows these edges at the node of a step.
fn follow_each(
    search: &Search<'_>,
    place: u32,
    row: &[u32],
    steps: &mut Vec<Step>,
    places: &mut [Option<u32>],
) -> Result<(), AllocError>
    requires steps { AreSteps search.now.graph.now search.now.set.now search.now.goal
        steps.old.items places.old }
    requires place { place < length steps.old.items }
    requires row { All (IsAt search.now.graph.now search.now.set.now (step_at steps.old.items
        place).node) row.now }
    ensures steps { OnOk result
        (AreSteps search.now.graph.now search.now.set.now search.now.goal steps.new.items
        places.new) }
    ensures goes_on { OnOk result
        (GoesOn steps.old.items steps.new.items places.old places.new) }
    ensures reached { OnOk result ((i : ℕ) → i < length row.now →
        is_reached places.new (across (edge_at search.now.graph.now (slice_index row.now i))
        (step_at steps.old.items place).node) ≡ true) }
{
    for i in 0..row.len() {
        follow(search, place, row[i], steps, places)?;
    }
    Ok(())
}

/// Goes on until each edge at a node that was reached leads to another one.
fn follow_all(
    search: &Search<'_>,
    rows: &Grouped<u32>,
    steps: &mut Vec<Step>,
    places: &mut [Option<u32>],
) -> Result<(), AllocError>
    requires rows { AreRows search.now.graph.now search.now.set.now rows.now }
    requires steps { AreSteps search.now.graph.now search.now.set.now search.now.goal
        steps.old.items places.old }
    ensures steps { OnOk result
        (AreSteps search.now.graph.now search.now.set.now search.now.goal steps.new.items
        places.new) }
    ensures followed { OnOk result (AreFollowed search.now.graph.now search.now.set.now
        steps.new.items places.new
        (length steps.new.items)) }
{
    let mut place: u32 = 0;
    while (place as usize) < steps.len() {
        let node = steps[place as usize].node;
        let row = row_at(rows, node);
        follow_each(search, place, row, steps, places)?;
        place += 1;
    }
    Ok(())
}

/// The first step of a search.
fn begin(
    alloc: Global,
    search: &Search<'_>,
    places: &mut [Option<u32>],
) -> Result<Vec<Step>, AllocError>
    requires goal { search.now.goal < search.now.graph.now.nodes }
    requires sizes { length places.old ≡ search.now.graph.now.nodes }
    requires blank { (v : ℕ) → place_of places.old v ≡ None }
    ensures { IfOk result (λ s. AreSteps search.now.graph.now search.now.set.now search.now.goal
        s.items places.new) }
{
    let _of = (search.graph.nodes, search.set.len());
    let mut steps = Vec::new(alloc);
    steps.push(Step {
        node: search.goal,
        edge: 0,
        from: 0,
    })?;
    places[search.goal as usize] = Some(0);
    Ok(steps)
}

/// The edges that lead from the node of a step back to that of the first.
fn back_from(
    alloc: Global,
    search: &Search<'_>,
    steps: &[Step],
    places: &[Option<u32>],
    place: u32,
) -> Result<Vec<u32>, AllocError>
    requires steps { AreSteps search.now.graph.now search.now.set.now search.now.goal steps.now
        places.now }
    requires place { place < length steps.now }
    ensures path { IfOk result (λ v.
        IsPath search.now.graph.now (step_at steps.now place).node v.items search.now.goal) }
    ensures set { IfOk result (λ v. All (λ e. is_in search.now.set.now e ≡ true) v.items) }
{
    let _of = (
        search.graph.nodes,
        search.set.len(),
        search.goal,
        places.len(),
    );
    let mut edges = Vec::new(alloc);
    let mut at = place;
    while at > 0 {
        let step = steps[at as usize];
        edges.push(step.edge)?;
        at = step.from;
    }
    Ok(edges)
}

/// The same with a place for each node.
fn trace(
    alloc: Global,
    graph: &Signed,
    set: &[bool],
    from: u32,
    to: u32,
    places: &mut [Option<u32>],
) -> Result<Vec<u32>, AllocError>
    requires from { from < graph.now.nodes }
    requires to { to < graph.now.nodes }
    requires joined { AreJoined graph.now (is_in set.now) to from }
    requires sizes { length places.old ≡ graph.now.nodes }
    requires blank { (v : ℕ) → place_of places.old v ≡ None }
    ensures path { IfOk result (λ v. IsPath graph.now from v.items to) }
    ensures set { IfOk result (λ v. All (λ e. is_in set.now e ≡ true) v.items) }
{
    let search = Search {
        graph,
        set,
        goal: to,
    };
    let rows = rows_of(alloc, graph, set)?;
    let mut steps = begin(alloc, &search, places)?;
    follow_all(&search, &rows, &mut steps, places)?;
    match places[from as usize] {
        Some(place) => {
            let edges = back_from(alloc, &search, steps.as_slice(), places, place)?;
            Ok(edges)
        }
        None => unreachable!(),
    }
}

/// Edges of a set that lead from one node to another which they join. It costs the nodes and edges of
/// the graph.
pub fn walk(
    alloc: Global,
    graph: &Signed,
    set: &[bool],
    from: u32,
    to: u32,
) -> Result<Vec<u32>, AllocError>
    requires from { from < graph.now.nodes }
    requires to { to < graph.now.nodes }
    requires joined { AreJoined graph.now (is_in set.now) to from }
    ensures path { IfOk result (λ v. IsPath graph.now from v.items to) }
    ensures set { IfOk result (λ v. All (λ e. is_in set.now e ≡ true) v.items) }
{
    let mut places = vec![in alloc; None; graph.nodes as usize]?;
    let edges = trace(alloc, graph, set, from, to, &mut places)?;
    Ok(edges)
}
