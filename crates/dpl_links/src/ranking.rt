// The kinds by which fragments stand at stops, so that walks over the stops are short.
ghost use Rattle.std.specs.Prelude.{◌≡◌, IfOk, length};

use crate::pieces::{Pieces, number_at, set};
use std::alloc::{AllocError, Global};

/// No shape has this number.
const NONE: u32 = u32::MAX;

/// The shape of each piece, and of each shape how many fragments and how many pieces it has.
#[derive(Drop)]
struct Sizes {
    homes: Vec<u32>,
    fragments: Vec<u32>,
    pieces: Vec<u32>,
}

/// A kind for each fragment, that of its piece. Kinds of one shape follow one another, and shapes of small pieces come
/// first: who looks from small pieces at large ones looks at few.
pub fn kinds_of(alloc: Global, pieces: &Pieces<'_>) -> Result<Vec<u32>, AllocError>
    ensures { IfOk result (λ v. length v.items ≡ length pieces.now.piece.now) }
{
    let sizes = sizes_of(alloc, pieces)?;
    let ranks = ranks_of(alloc, &sizes)?;
    let mut kinds = Vec::with_capacity(alloc, pieces.piece.len())?;
    for piece in pieces.piece {
        kinds.push(number_at(ranks.as_slice(), *piece as usize))?;
    }
    Ok(kinds)
}

fn sizes_of(alloc: Global, pieces: &Pieces<'_>) -> Result<Sizes, AllocError> {
    let count = pieces.piece.len();
    let mut sizes = Sizes {
        homes: vec![in alloc; NONE; count]?,
        fragments: vec![in alloc; 0u32; count]?,
        pieces: vec![in alloc; 0u32; count]?,
    };
    for i in 0..count {
        let piece = number_at(pieces.piece, i) as usize;
        let shape = number_at(pieces.shape, i);
        if number_at(sizes.homes.as_slice(), piece) == NONE {
            set(sizes.homes.as_mut_slice(), piece, shape);
            count_at(sizes.pieces.as_mut_slice(), shape as usize);
        }
        count_at(sizes.fragments.as_mut_slice(), shape as usize);
    }
    Ok(sizes)
}

/// Counts one more at a place.
fn count_at(numbers: &mut [u32], place: usize) {
    let number = number_at(numbers, place);
    set(numbers, place, number.saturating_add(1));
}

/// The place of each piece in their order.
fn ranks_of(alloc: Global, sizes: &Sizes) -> Result<Vec<u32>, AllocError> {
    let count = sizes.homes.len();
    let mut order = Vec::with_capacity(alloc, count)?;
    for piece in 0..count {
        let shape = number_at(sizes.homes.as_slice(), piece);
        order.push(((size_of(sizes, shape), shape), piece))?;
    }
    order.sort_unstable();
    let mut ranks = vec![in alloc; 0u32; count]?;
    let mut rank = 0u32;
    for place in order.as_slice() {
        set(ranks.as_mut_slice(), place.1, rank);
        rank = rank.saturating_add(1);
    }
    Ok(ranks)
}

/// How many fragments the pieces of a shape have, on average.
fn size_of(sizes: &Sizes, shape: u32) -> u32 {
    let fragments = number_at(sizes.fragments.as_slice(), shape as usize);
    fragments / number_at(sizes.pieces.as_slice(), shape as usize).max(1)
}
