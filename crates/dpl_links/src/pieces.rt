//! Fragments with all that is known of each.
ghost use Rattle.std.specs.Prelude.{◌≡◌, IfOk, true, length, slice_index_or};
ghost use Rattle.dpl_links.specs.Crowds.{AreTold};

use dpl_cell::Rect;
use std::alloc::{AllocError, Global};

/// Fragments, and for each of them the numbers of its tile, its shape and its piece. `space`, the
/// spacing, is in grid units.
#[derive(Clone, Copy)]
pub struct Pieces<'a> {
    pub rects: &'a [Rect],
    pub tile: &'a [u32],
    pub shape: &'a [u32],
    pub piece: &'a [u32],
    pub space: u64,
}

/// Whether all fragments of each kind are of one piece and of one shape.
pub fn tell_pieces(alloc: Global, kinds: &[u32], pieces: &Pieces<'_>) -> Result<bool, AllocError>
    requires shapes { length pieces.now.shape.now ≡ length kinds.now }
    requires pieces { length pieces.now.piece.now ≡ length kinds.now }
    ensures shapes { IfOk result (λ b. b ≡ true → AreTold kinds.now pieces.now.shape.now) }
    ensures pieces { IfOk result (λ b. b ≡ true → AreTold kinds.now pieces.now.piece.now) }
{
    let shapes = are_told(alloc, kinds, pieces.shape)?;
    let told = are_told(alloc, kinds, pieces.piece)?;
    Ok(shapes && told)
}

/// Whether the same number stands wherever the same key does.
fn are_told(alloc: Global, keys: &[u32], values: &[u32]) -> Result<bool, AllocError>
    requires { length values.now ≡ length keys.now }
    ensures { IfOk result (λ b. b ≡ true → AreTold keys.now values.now) }
{
    let mut by_key = vec![in alloc; 0u32; keys.len()]?;
    for i in 0..keys.len() {
        set(&mut by_key, keys[i] as usize, values[i]);
    }
    let are = are_as_told(&by_key, keys, values);
    Ok(are)
}

/// Sets the number at a place, if there is one.
pub fn set(numbers: &mut [u32], place: usize, number: u32)
    ensures { length numbers.new ≡ length numbers.old }
{
    if let Some(at) = numbers.get_mut(place) {
        *at = number;
    }
}

/// Whether each number is the one that is given for its key.
fn are_as_told(by_key: &[u32], keys: &[u32], values: &[u32]) -> bool
    requires { length values.now ≡ length keys.now }
    ensures { result ≡ true → AreTold keys.now values.now }
{
    for i in 0..keys.len() {
        if number_at(by_key, keys[i] as usize) != values[i] {
            return false;
        }
    }
    true
}

/// The number at a place; 0 where there is none.
pub fn number_at(numbers: &[u32], place: usize) -> u32
    ensures { result ≡ slice_index_or numbers.now place 0 }
{
    match numbers.get(place) {
        None => 0,
        Some(number) => *number,
    }
}
