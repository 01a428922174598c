// The content of a session.
ghost use Rattle.std.specs.Prelude.{◌≡◌, ◌∷◌, [], ◌++◌, length, take, IfOk, OnOk};
ghost use Rattle.dpl_edit.specs.Contents.{content, boxes_without, has_number};

use crate::placed::Placed;
use dpl_cell::Prim;
use std::alloc::{AllocError as NoMemory, Global};

/// The boxes and one more.
pub fn with_box(alloc: Global, boxes: &[Placed], placed: Placed) -> Result<Vec<Placed>, NoMemory>
    ensures { IfOk result (λ v. v.items ≡ boxes.now ++ placed ∷ []) }
{
    let mut more = Vec::from_slice(alloc, boxes)?;
    more.push(placed)?;
    Ok(more)
}

fn keep(kept: &mut Vec<Placed>, placed: Placed, number: u64) -> Result<(), NoMemory>
    ensures { OnOk result (kept.new.items ≡ kept.old.items ++ boxes_without number (placed ∷ [])) }
{
    if placed.number != number {
        kept.push(placed)?;
    }
    Ok(())
}

/// The boxes but the one with this number.
#[tactic(auto, using(crate::proofs::ContentLemmas::one_box))]
pub fn without_box(alloc: Global, boxes: &[Placed], number: u64) -> Result<Vec<Placed>, NoMemory>
    ensures { IfOk result (λ v. v.items ≡ boxes_without number boxes.now) }
{
    let mut kept = Vec::new(alloc);
    for placed in boxes {
        keep(&mut kept, *placed, number)?;
    }
    Ok(kept)
}

/// Whether one of the boxes has this number.
pub fn has_box(boxes: &[Placed], number: u64) -> bool
    ensures { result ≡ has_number number boxes.now }
{
    boxes.iter().any(|placed| placed.number == number)
}

/// Puts the boxes behind the primitives.
#[tactic(auto, using(crate::proofs::ContentLemmas::content_front))]
pub fn push_boxes(prims: &mut Vec<Prim>, boxes: &[Placed]) -> Result<(), NoMemory>
    ensures pushed { OnOk result (prims.new.items ≡ content prims.old.items boxes.now) }
    ensures kept { take (length prims.old.items) prims.new.items ≡ prims.old.items }
{
    for placed in boxes {
        prims.push(Prim::Box(placed.rect))?;
    }
    Ok(())
}
