// The net of some components of a net.
ghost use Rattle.std.specs.Prelude.{◌≡◌, ◌<◌, ◌^◌, ℕ, true, length, slice_index_or, All, IfOk, OnOk, [], ◌∷◌, ◌++◌, if◌then◌else◌};
ghost use Rattle.dpl_sign.specs.Drawings.{no_port};
ghost use Rattle.dpl_sign.specs.Walks.{no_edge};
ghost use Rattle.dpl_parts.specs.Parts.{IsPartOf};
ghost use Rattle.dpl_parts.specs.Picks.{is_taken, AreClosed, ArePicked, picked_below, is_edge_taken, place_in, IsRenumbered, HasPlaces};

use dpl_sign::{Edge, Net, Port};
use std::alloc::{AllocError as NoMemory, Global};

/// The net of some components of another net, and the numbers that its nodes and its edges have there.
#[derive(Drop)]
pub struct Gathered {
    pub net: Net,
    pub nodes: Vec<u32>,
    pub edges: Vec<u32>,
}

fn push_where(found: &mut Vec<u32>, holds: bool, number: u32) -> Result<(), NoMemory>
    ensures { OnOk result (found.new.items ≡
        (if holds then found.old.items ++ number ∷ [] else found.old.items)) }
{
    if holds {
        found.push(number)?;
    }
    Ok(())
}

/// The taken nodes, in order.
fn taken_nodes(alloc: Global, taken: &[bool]) -> Result<Vec<u32>, NoMemory>
    requires few { length taken.now < 2 ^ 32 }
    ensures { IfOk result (λ v. v.items ≡ picked_below (is_taken taken.now) (length taken.now)) }
{
    let mut found = Vec::new(alloc);
    for v in 0..taken.len() {
        push_where(&mut found, taken[v], v as u32)?;
    }
    Ok(found)
}

/// How many taken nodes stand before each node.
fn places(alloc: Global, taken: &[bool]) -> Result<Vec<u32>, NoMemory>
    requires few { length taken.now < 2 ^ 32 }
    ensures long { IfOk result (λ p. length p.items ≡ length taken.now) }
    ensures each { IfOk result (λ p. (v : ℕ) → v < length taken.now →
        slice_index_or p.items v 0 ≡ place_in (is_taken taken.now) v) }
{
    let mut found = Vec::new(alloc);
    let mut count = 0u32;
    for v in 0..taken.len() {
        found.push(count)?;
        if taken[v] {
            count += 1;
        }
    }
    Ok(found)
}

/// The edges between taken nodes, in order.
fn taken_edges(alloc: Global, taken: &[bool], edges: &[Edge]) -> Result<Vec<u32>, NoMemory>
    requires few { length edges.now < 2 ^ 32 }
    requires ends { (e : ℕ) → e < length edges.now →
        (slice_index_or edges.now e no_edge).a < length taken.now }
    ensures { IfOk result (λ v. v.items ≡
        picked_below (is_edge_taken taken.now edges.now) (length edges.now)) }
{
    let mut found = Vec::new(alloc);
    for e in 0..edges.len() {
        push_where(&mut found, taken[edges[e].a as usize], e as u32)?;
    }
    Ok(found)
}

/// The edge between these ends.
fn renumbered(edge: &Edge, place: &[u32]) -> Edge
    requires first { edge.now.a < length place.now }
    requires second { edge.now.b < length place.now }
    requires order { slice_index_or place.now edge.now.a 0 < slice_index_or place.now edge.now.b 0 }
    ensures { IsRenumbered edge.now result place.now }
{
    Edge {
        a: place[edge.a as usize],
        b: place[edge.b as usize],
        kind: edge.kind,
        weight: edge.weight,
    }
}

/// These edges, with these places of their ends.
fn gathered_edges(
    alloc: Global,
    edges: &[Edge],
    picks: &[u32],
    place: &[u32],
) -> Result<Vec<Edge>, NoMemory>
    requires within { All (λ e. e < length edges.now) picks.now }
    requires ends { All (λ e. HasPlaces (slice_index_or edges.now e no_edge) place.now) picks.now }
    ensures long { IfOk result (λ v. length v.items ≡ length picks.now) }
    ensures each { IfOk result (λ v. (i : ℕ) → i < length picks.now →
        IsRenumbered (slice_index_or edges.now (slice_index_or picks.now i 0) no_edge)
        (slice_index_or v.items i no_edge) place.now) }
{
    let mut found = Vec::new(alloc);
    for pick in picks {
        found.push(renumbered(&edges[*pick as usize], place))?;
    }
    Ok(found)
}

/// These ports.
fn gathered_ports(
    alloc: Global,
    ports: &[(Port, Port)],
    picks: &[u32],
) -> Result<Vec<(Port, Port)>, NoMemory>
    requires within { All (λ e. e < length ports.now) picks.now }
    ensures long { IfOk result (λ v. length v.items ≡ length picks.now) }
    ensures each { IfOk result (λ v. (i : ℕ) → i < length picks.now →
        slice_index_or v.items i (no_port, no_port)
        ≡ slice_index_or ports.now (slice_index_or picks.now i 0) (no_port, no_port)) }
{
    let mut found = Vec::new(alloc);
    for pick in picks {
        found.push(ports[*pick as usize])?;
    }
    Ok(found)
}

/// These pieces.
fn gathered_pieces(
    alloc: Global,
    pieces: &[u32],
    nodes: &[u32],
    count: u32,
) -> Result<Vec<u32>, NoMemory>
    requires within { All (λ v. v < length pieces.now) nodes.now }
    requires numbers { All (λ p. p < count) pieces.now }
    ensures long { IfOk result (λ v. length v.items ≡ length nodes.now) }
    ensures numbers { IfOk result (λ v. All (λ p. p < count) v.items) }
{
    let mut found = Vec::new(alloc);
    for node in nodes {
        found.push(pieces[*node as usize])?;
    }
    Ok(found)
}

/// The net of the picked nodes and the picked edges between them.
pub fn gather_picked(
    alloc: Global,
    net: &Net,
    nodes: Vec<u32>,
    place: &[u32],
    picks: Vec<u32>,
) -> Result<Gathered, NoMemory>
    requires { ArePicked net.now nodes.items place.now picks.items }
    ensures part { IfOk result (λ g. IsPartOf g.net net.now
        (λ v. slice_index_or g.nodes.items v 0) (λ e. slice_index_or g.edges.items e 0)) }
    ensures nodes { IfOk result (λ g. g.nodes.items ≡ nodes.items) }
    ensures count { IfOk result (λ g. g.net.graph.nodes ≡ length nodes.items) }
{
    let edges = net.graph.edges.as_slice();
    let found = gathered_edges(alloc, edges, picks.as_slice(), place)?;
    let ports = gathered_ports(alloc, net.ports.as_slice(), picks.as_slice())?;
    let pieces = gathered_pieces(
        alloc,
        net.pieces.as_slice(),
        nodes.as_slice(),
        net.piece_count,
    )?;
    let net = Net::assembled(nodes.len() as u32, found, ports, pieces, net.piece_count);
    Ok(Gathered {
        net,
        nodes,
        edges: picks,
    })
}

/// The net of the components whose nodes are taken: these nodes and the edges between them.
pub fn gather(alloc: Global, net: &Net, taken: &[bool]) -> Result<Gathered, NoMemory>
    requires long { length taken.now ≡ net.now.graph.nodes }
    requires closed { AreClosed taken.now net.now.graph.edges }
    ensures part { IfOk result (λ g. IsPartOf g.net net.now
        (λ v. slice_index_or g.nodes.items v 0) (λ e. slice_index_or g.edges.items e 0)) }
    ensures taken { IfOk result (λ g. (v : ℕ) → v < g.net.graph.nodes →
        is_taken taken.now (slice_index_or g.nodes.items v 0) ≡ true) }
    ensures all { IfOk result (λ g. (w : ℕ) → is_taken taken.now w ≡ true →
        (v : ℕ) × (v < g.net.graph.nodes) × (slice_index_or g.nodes.items v 0 ≡ w)) }
{
    let nodes = taken_nodes(alloc, taken)?;
    let place = places(alloc, taken)?;
    let picks = taken_edges(alloc, taken, net.graph.edges.as_slice())?;
    match gather_picked(alloc, net, nodes, place.as_slice(), picks) {
        Ok(gathered) => Ok(gathered),
        Err(error) => Err(error),
    }
}
