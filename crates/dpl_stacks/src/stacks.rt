// Stacks in two lists near the place, and in blocks on either side of these.
ghost use Rattle.std.specs.Prelude.{◌≡◌, ◌++◌, [], IfOk, OnOk};
ghost use Rattle.dpl_stacks.specs.Stacks.{joined, stacks_of};

use crate::moving::push_back;
use dpl_cell::Rect;
use std::alloc::{AllocError, Global};

/// Stacks from the left up to a place, and from there on. Those near the place stand in two lists,
/// those far from it in blocks. `left` and each block hold their stacks from the left, and `right`
/// from the right; the last block of each list is the one nearest the place.
#[derive(Drop)]
pub struct Stacks {
    pub far_left: Vec<Vec<Rect>>,
    pub left: Vec<Rect>,
    pub right: Vec<Rect>,
    pub far_right: Vec<Vec<Rect>>,
}

/// No stacks.
pub fn no_stacks(alloc: Global) -> Stacks
    ensures { stacks_of result ≡ [] }
{
    Stacks {
        far_left: Vec::new(alloc),
        left: Vec::new(alloc),
        right: Vec::new(alloc),
        far_right: Vec::new(alloc),
    }
}

/// All stacks in one list, from the left.
///
/// # Errors
///
/// `AllocError` where memory runs out.
pub fn all_stacks(alloc: Global, stacks: &mut Stacks) -> Result<Vec<Rect>, AllocError>
    ensures { IfOk result (λ v. v.items ≡ stacks_of stacks.old) }
{
    let mut all = Vec::new(alloc);
    push_stacks(&mut all, stacks.far_left.as_slice())?;
    all.extend_from_slice(stacks.left.as_slice())?;
    push_back(&mut all, stacks.right.as_slice())?;
    stacks.far_right.reverse();
    push_stacks(&mut all, stacks.far_right.as_slice())?;
    Ok(all)
}

/// Adds the stacks of blocks.
fn push_stacks(all: &mut Vec<Rect>, blocks: &[Vec<Rect>]) -> Result<(), AllocError>
    ensures { OnOk result (all.new.items ≡ all.old.items ++ joined blocks.now) }
{
    for block in blocks {
        all.extend_from_slice(block.as_slice())?;
    }
    Ok(())
}
