// Colours of which some pieces are turned over.
ghost use Rattle.std.specs.Prelude.{◌≡◌, ◌<◌, ◌==◌, ℕ, false, length, slice_index_or, IfOk};
ghost use Rattle.dpl_refine.specs.Gains.{turn};

use crate::searching::flag_at;
use std::alloc::{AllocError as NoMemory, Global};

fn turn_where(turned: bool, colour: bool) -> bool
    ensures { result ≡ turn turned colour }
{
    if turned { !colour } else { colour }
}

/// The colours after one piece is turned over.
pub fn turned(alloc: Global, colours: &[bool], piece: &[u32], p: u32) -> Result<Vec<bool>, NoMemory>
    requires long { length piece.now ≡ length colours.now }
    ensures long { IfOk result (λ v. length v.items ≡ length colours.now) }
    ensures each { IfOk result (λ v. (k : ℕ) → k < length colours.now → slice_index_or v.items k false
        ≡ turn (slice_index_or piece.now k 0 == p) (slice_index_or colours.now k false)) }
{
    let mut found = Vec::new(alloc);
    for k in 0..colours.len() {
        found.push(turn_where(piece[k] == p, colours[k]))?;
    }
    Ok(found)
}

/// The colours after the pieces that have a flag are turned over.
pub fn turned_by(
    alloc: Global,
    colours: &[bool],
    piece: &[u32],
    flags: &[bool],
) -> Result<Vec<bool>, NoMemory>
    requires long { length piece.now ≡ length colours.now }
    ensures long { IfOk result (λ v. length v.items ≡ length colours.now) }
    ensures each { IfOk result (λ v. (k : ℕ) → k < length colours.now → slice_index_or v.items k false
        ≡ turn (slice_index_or flags.now (slice_index_or piece.now k 0) false)
        (slice_index_or colours.now k false)) }
{
    let mut found = Vec::new(alloc);
    for k in 0..colours.len() {
        found.push(turn_where(flag_at(flags, piece[k]), colours[k]))?;
    }
    Ok(found)
}
