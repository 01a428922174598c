// What finds the cells of primitives in a row.
ghost use Rattle.std.specs.Prelude.{◌≡◌, ◌++◌, ◌∷◌, [], IfOk, OnOk, filter};
ghost use Rattle.std.specs.List.{AllZip};
ghost use Rattle.dpl_tiles.specs.Finders.{boxes_of as the_boxes, is_polygon};
ghost use Rattle.dpl_tiles.specs.Sides.{AddsSidesOf, AreSides};

use crate::bounds::all_bounds;
use crate::sides::Sides;
use dpl_cell::{Prim, Rect};
use dpl_cover::Cover;
use dpl_index::Index;
use std::alloc::{AllocError, Global};

/// The polygons by their bounds, the sides of each of them, and the columns that boxes cover in the row that was reached.
#[derive(Drop)]
pub struct Finder {
    pub polygons: Index,
    pub sides: Vec<Sides>,
    pub cover: Cover,
}

impl Finder {
    ghost use Rattle.std.specs.Prelude.{◌≡◌, IfOk};
    ghost use Rattle.dpl_cover.specs.Covers.{least_row};
    ghost use Rattle.dpl_tiles.specs.Finders.{IsFinderOf};

    /// A finder over these primitives, below all rows. `AllocError` where memory runs out.
    pub fn new(alloc: Global, prims: &[Prim]) -> Result<Finder, AllocError>
        ensures finder { IfOk result (IsFinderOf prims.now) }
        ensures low { IfOk result (λ finder. finder.cover.row ≡ least_row) }
    {
        let boxes = boxes_of(alloc, prims)?;
        let cover = Cover::new(alloc, boxes.as_slice())?;
        let bounds = all_bounds(alloc, prims)?;
        let polygons = Index::new(alloc, bounds)?;
        let sides = all_sides(alloc, prims)?;
        Ok(Finder {
            polygons,
            sides,
            cover,
        })
    }
}

/// The boxes among primitives.
fn boxes_of(alloc: Global, prims: &[Prim]) -> Result<Vec<Rect>, AllocError>
    ensures { IfOk result (λ v. v.items ≡ the_boxes prims.now) }
{
    let mut boxes = Vec::with_capacity(alloc, prims.len())?;
    for prim in prims {
        push_box(&mut boxes, prim)?;
    }
    Ok(boxes)
}

fn push_box(boxes: &mut Vec<Rect>, prim: &Prim) -> Result<(), AllocError>
    ensures { OnOk result (boxes.new.items ≡ boxes.old.items ++ the_boxes (prim.now ∷ [])) }
{
    match prim {
        Prim::Box(r) => {
            boxes.push(*r)?;
            Ok(())
        }
        Prim::Poly(_) => Ok(()),
    }
}

/// The sides of each polygon.
fn all_sides(alloc: Global, prims: &[Prim]) -> Result<Vec<Sides>, AllocError>
    ensures { IfOk result (λ v. AllZip AreSides (filter is_polygon prims.now) v.items) }
{
    let mut all = Vec::new(alloc);
    for prim in prims {
        push_sides(alloc, &mut all, prim)?;
    }
    Ok(all)
}

/// Adds the sides of a polygon.
fn push_sides(alloc: Global, all: &mut Vec<Sides>, prim: &Prim) -> Result<(), AllocError>
    ensures { OnOk result (AddsSidesOf prim.now all.old.items all.new.items) }
{
    match prim {
        Prim::Box(_) => Ok(()),
        Prim::Poly(points) => {
            let sides = Sides::new(alloc, points.as_slice())?;
            all.push(sides)?;
            Ok(())
        }
    }
}
