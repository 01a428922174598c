// What each piece wins and loses where it is turned over.
ghost use Rattle.std.specs.Prelude.{◌≡◌, ◌+◌, ◌*◌, ◌<◌, ◌≤◌, ◌^◌, ◌==◌, ◌&&◌, if◌then◌else◌, ℕ, None, length, slice_index_or, All, IfOk, IfSome};
ghost use Rattle.dpl_sign.specs.declared.edges.Edge.{Edge as PlainEdge};
ghost use Rattle.dpl_refine.specs.Gains.{weighed_at, weight_out, won_of, lost_of};

use dpl_sign::{Edge, broken};
use std::alloc::{AllocError as NoMemory, Global};

/// Adds a weight to the sum with a number, where the test holds.
pub fn add_where(sums: &mut [u64], p: usize, holds: bool, weight: u64)
    requires inside { p < length sums.old }
    requires room { slice_index_or sums.old p 0 ≤ 2 ^ 60 }
    requires few { weight ≤ 1000000 }
    ensures long { length sums.new ≡ length sums.old }
    ensures each { (k : ℕ) → k < length sums.old → slice_index_or sums.new k 0
        ≡ (if (p == k) && holds then weight else 0) + slice_index_or sums.old k 0 }
{
    if holds {
        sums[p] += weight;
    }
}

/// Adds the weight of an edge to the sums of the pieces of its two ends, if it leads from one to another and is broken
/// or not, as asked.
fn add_edge(sums: &mut [u64], edge: &Edge, piece: &[u32], colours: &[bool], wanted: bool)
    requires first { edge.now.a < length piece.now }
    requires second { edge.now.b < length piece.now }
    requires coloured { length colours.now ≡ length piece.now }
    requires within { All (λ c. c < length sums.old) piece.now }
    requires room { (k : ℕ) → k < length sums.old → slice_index_or sums.old k 0 ≤ 2 ^ 59 }
    ensures long { length sums.new ≡ length sums.old }
    ensures each { (k : ℕ) → k < length sums.old → slice_index_or sums.new k 0
        ≡ weighed_at wanted piece.now colours.now k edge.now + slice_index_or sums.old k 0 }
{
    let p = piece[edge.a as usize];
    let q = piece[edge.b as usize];
    let is_broken = broken(edge, colours[edge.a as usize], colours[edge.b as usize]);
    let counts = p != q && is_broken == wanted;
    add_where(sums, p as usize, counts, edge.weight);
    add_where(sums, q as usize, counts, edge.weight);
}

/// Adds the weight of each edge to the sums of the pieces of its ends.
fn add_edges(sums: &mut [u64], edges: &[Edge], piece: &[u32], colours: &[bool], wanted: bool)
    requires few { length edges.now < 2 ^ 30 }
    requires ends { All (λ e. e.b < length piece.now) edges.now }
    requires coloured { length colours.now ≡ length piece.now }
    requires within { All (λ c. c < length sums.old) piece.now }
    requires zero { (k : ℕ) → k < length sums.old → slice_index_or sums.old k 0 ≡ 0 }
    ensures long { length sums.new ≡ length sums.old }
    ensures each { (k : ℕ) → k < length sums.old → slice_index_or sums.new k 0
        ≡ weight_out wanted edges.now piece.now colours.now k }
{
    for edge in edges {
        add_edge(sums, edge, piece, colours, wanted);
    }
}

/// For each piece the weight of the edges that lead out of it and are broken, or are not, as asked.
fn weights(
    alloc: Global,
    edges: &[Edge],
    piece: &[u32],
    count: u32,
    colours: &[bool],
    wanted: bool,
) -> Result<Vec<u64>, NoMemory>
    requires few { length edges.now < 2 ^ 30 }
    requires ends { All (λ e. e.b < length piece.now) edges.now }
    requires coloured { length colours.now ≡ length piece.now }
    requires within { All (λ c. c < count) piece.now }
    ensures long { IfOk result (λ v. length v.items ≡ count) }
    ensures each { IfOk result (λ v. (k : ℕ) → k < count → slice_index_or v.items k 0
        ≡ weight_out wanted edges.now piece.now colours.now k) }
{
    let mut sums = vec![in alloc; 0; count as usize]?;
    add_edges(sums.as_mut_slice(), edges, piece, colours, wanted);
    Ok(sums)
}

/// The first piece that wins more than it loses.
fn first_winner(won: &[u64], lost: &[u64]) -> Option<u32>
    requires same { length lost.now ≡ length won.now }
    requires few { length won.now < 2 ^ 32 }
    ensures none { result ≡ None → (k : ℕ) → k < length won.now →
        slice_index_or won.now k 0 ≤ slice_index_or lost.now k 0 }
    ensures inside { IfSome result (λ p. p < length won.now) }
    ensures wins { IfSome result (λ p. slice_index_or lost.now p 0 < slice_index_or won.now p 0) }
{
    for p in 0..won.len() {
        if lost[p] < won[p] {
            return Some(p as u32);
        }
    }
    None
}

/// A piece that wins more than it loses, if there is one.
pub fn winner(
    alloc: Global,
    edges: &[Edge],
    piece: &[u32],
    count: u32,
    colours: &[bool],
) -> Result<Option<u32>, NoMemory>
    requires few { length edges.now < 2 ^ 30 }
    requires ends { All (λ e. e.b < length piece.now) edges.now }
    requires coloured { length colours.now ≡ length piece.now }
    requires within { All (λ c. c < count) piece.now }
    ensures none { IfOk result (λ o. o ≡ None → (p : ℕ) → p < count →
        won_of edges.now piece.now colours.now p ≤ lost_of edges.now piece.now colours.now p) }
    ensures wins { IfOk result (λ o. IfSome o (λ p.
        lost_of edges.now piece.now colours.now p < won_of edges.now piece.now colours.now p)) }
{
    let won = weights(alloc, edges, piece, count, colours, true)?;
    let lost = weights(alloc, edges, piece, count, colours, false)?;
    let found = first_winner(won.as_slice(), lost.as_slice());
    Ok(found)
}
