// Turns of crowded fragments: from which stop on each of them looks at others, so that of each two of different shapes one
// looks at the other.
ghost use Rattle.std.specs.Prelude.{◌≡◌, ◌<◌, ◌+◌, ℕ, IfOk, IsPermutation, length};
ghost use Rattle.dpl_links.specs.Crowds.{AreOfOneShape, AreTurns, IsCrowd};

use crate::crowded::Crowd;
use crate::pieces::number_at;
use std::alloc::{AllocError, Global};

/// A fragment by its number, and the stop from which on it looks at others.
#[derive(Clone, Copy, Debug)]
pub struct Turn {
    pub number: usize,
    pub from: usize,
}

/// A turn for each crowded fragment: from the next stop on that is of another shape.
pub fn turns_of(alloc: Global, crowd: &Crowd<'_>, crowded: &[bool]) -> Result<Vec<Turn>, AllocError>
    requires crowd { IsCrowd crowd.now }
    requires long { length crowded.now ≡ length crowd.now.pieces.rects.now }
    ensures { IfOk result (λ v. AreTurns crowd.now crowded.now v.items) }
{
    let mut turns = Vec::new(alloc);
    let mut k = crowd.stops.len();
    let mut from = k;
    'back: while k > 0 {
        k -= 1;
        from = next_shape(crowd, k, from);
        let number = crowd.stops[k].number;
        if crowded[number] {
            turns.push(Turn { number, from })?;
        }
    }
    Ok(turns)
}

/// The next stop behind one that is of another shape, where this is the one for the stop behind it.
fn next_shape(crowd: &Crowd<'_>, k: usize, from: usize) -> usize
    requires crowd { IsCrowd crowd.now }
    requires within { k < length crowd.now.stops.now }
    requires from { AreOfOneShape crowd.now (k + 1) from }
    ensures { AreOfOneShape crowd.now k result }
{
    let (stops, shape) = (crowd.stops, crowd.pieces.shape);
    let next = k + 1;
    if next < stops.len() && shape[stops[k].number] != shape[stops[next].number] {
        return next;
    }
    from
}

/// Puts turns into order: those of a piece together, since what is near one of its fragments spares looking around the next,
/// and these mixed, so that something near is soon found.
pub fn in_turn(turns: &mut Vec<Turn>, piece: &[u32])
    ensures { IsPermutation turns.old.items turns.new.items }
{
    turns.sort_unstable_by_key(|t| (number_at(piece, t.number), mixed(t.number)));
}

/// A number that seldom follows that of the number before.
fn mixed(number: usize) -> usize {
    number.wrapping_mul(0x9E37_79B1) & 0xffff_ffff
}
