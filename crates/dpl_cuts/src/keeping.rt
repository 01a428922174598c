//! The rectangles in which nothing is cut, by their bounds.

ghost use Rattle.std.specs.Prelude.{◌≡◌, IfOk, map};
ghost use Rattle.dpl_cell.specs.Places.{corners_of};
ghost use Rattle.dpl_cuts.specs.Blocks.{MayBeKept};

use dpl_cell::Rect;
use dpl_index::Index;
use dpl_near::{all_bounds, bounds_of};
use std::alloc::{AllocError, Global};
use std::marker::Model;

/// Finds the kept rectangles that share cells with a tile. Contracts see the list of all of them.
#[derive(Drop)]
pub struct Keeper<'a> {
    rects: &'a [Rect],
    index: Index,
}

impl<'a> Model for Keeper<'a> {
    ghost use Rattle.std.specs.Prelude.{◌≡◌, List, map};
    ghost use Rattle.dpl_cell.specs.Places.{Corners, corners_of};
    ghost use Rattle.dpl_near.specs.Bounds.{bounds_of};

    ghost Value = { List Corners };

    ghost view = { λ k. map corners_of k.rects.now };

    ghost invariant = { λ k. k.index ≡ map (λ r. bounds_of (corners_of r)) k.rects.now };
}

impl<'a> Keeper<'a> {
    ghost use Rattle.std.specs.Prelude.{◌≡◌, IfOk, map};
    ghost use Rattle.dpl_cell.specs.Places.{corners_of};
    ghost use Rattle.dpl_cuts.specs.Blocks.{MayBeKept};

    /// A keeper of these rectangles, which may overlap. `AllocError` where memory runs out.
    pub fn new(alloc: Global, rects: &'a [Rect]) -> Result<Keeper<'a>, AllocError>
        ensures { IfOk result (λ k. k ≡ map corners_of rects.now) }
    {
        let bounds = all_bounds(alloc, rects)?;
        let index = Index::new(alloc, bounds)?;
        Ok(Keeper { rects, index })
    }

    /// The numbers of rectangles, among them all that share a cell with the tile.
    pub fn shared_with(&self, alloc: Global, tile: &Rect) -> Result<Vec<usize>, AllocError>
        ensures { IfOk result (λ v. MayBeKept self.now (corners_of tile.now) v.items) }
    {
        let _rects = self.rects.len();
        let found = self.index.meeting(alloc, &bounds_of(tile))?;
        Ok(found)
    }
}
