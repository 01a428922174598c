// Colours of which no piece can be turned over to cost less.
ghost use Rattle.std.specs.Prelude.{◌<◌, All, IfOk};
ghost use Rattle.dpl_sign.specs.Colourings.{IsColouring};
ghost use Rattle.dpl_refine.specs.Pieces.{ArePieces};
ghost use Rattle.dpl_refine.specs.Refined.{IsRefined, IsCheaperOrSame, IsCheaperOrSameAround};

use crate::choosing::cheaper_around;
use crate::gaining::winner;
use crate::joining::pieces;
use crate::searching::search;
use crate::turning::{turned, turned_by};
use dpl_sign::{Signed, cost};
use std::alloc::{AllocError as NoMemory, Global};

/// What a search finds, in the components where it costs less, or else the colours as they are.
fn begun(
    alloc: Global,
    graph: &Signed,
    piece: &[u32],
    count: u32,
    colours: &[bool],
) -> Result<Vec<bool>, NoMemory>
    requires colouring { IsColouring graph.now colours.now }
    requires pieces { ArePieces graph.now piece.now count }
    ensures colouring { IfOk result (λ v. IsColouring graph.now v.items) }
    ensures cheaper { IfOk result (λ v. IsCheaperOrSame graph.now colours.now v.items) }
    ensures around { IfOk result (λ v. IsCheaperOrSameAround graph.now colours.now v.items) }
{
    let flags = search(alloc, graph.edges.as_slice(), piece, count, colours)?;
    let found = turned_by(alloc, colours, piece, flags.as_slice())?;
    let tried = cheaper_around(alloc, graph, colours, found.as_slice())?;
    if cost(graph, tried.as_slice()) < cost(graph, colours) {
        return Ok(tried);
    }
    let same = Vec::from_slice(alloc, colours)?;
    Ok(same)
}

/// Turns pieces over while one of them wins. Each turn lowers the cost.
fn settle(
    alloc: Global,
    graph: &Signed,
    piece: &[u32],
    count: u32,
    colours: Vec<bool>,
) -> Result<Vec<bool>, NoMemory>
    requires colouring { IsColouring graph.now colours.items }
    requires pieces { ArePieces graph.now piece.now count }
    requires within { All (λ c. c < count) piece.now }
    ensures { IfOk result (λ v. IsRefined graph.now colours.items v.items) }
{
    let mut best = colours;
    'turns: loop {
        match winner(alloc, graph.edges.as_slice(), piece, count, best.as_slice())? {
            None => return Ok(best),
            Some(p) => best = turned(alloc, best.as_slice(), piece, p)?,
        }
    }
}

/// Colours that agree at bonds and cost less than the given ones, or are the same, and of which no piece can be turned over
/// alone to cost less. The time of the search is bounded, and each turn after it costs the edges.
pub fn refine(alloc: Global, graph: &Signed, colours: &[bool]) -> Result<Vec<bool>, NoMemory>
    requires colouring { IsColouring graph.now colours.now }
    ensures { IfOk result (λ v. IsRefined graph.now colours.now v.items) }
{
    let (piece, count) = pieces(alloc, graph)?;
    let begun = begun(alloc, graph, piece.as_slice(), count, colours)?;
    let found = settle(alloc, graph, piece.as_slice(), count, begun)?;
    Ok(found)
}
