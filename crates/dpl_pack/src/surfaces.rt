//! The moats round all sets, by what their members hold.

ghost use Rattle.std.specs.Prelude.{◌≡◌, ℕ, ◌+◌, ◌*◌, ◌<◌, List, length, IfOk, OnOk};
ghost use Rattle.dpl_laminar.specs.Families.{Sets};
ghost use Rattle.dpl_pack.specs.Nests.{layers_of};
ghost use Rattle.dpl_pack.specs.Laid.{moats_of, AreLaid};
ghost use Rattle.dpl_pack.specs.Stacks.{IsTable, AreStacked};
ghost use Rattle.dpl_pack.specs.Points.{Point, fars};
ghost use Rattle.dpl_pack.specs.Surfaces.{IsSurface, IsAfloat};

use crate::laid::{Level, Moats, Near};
use crate::spots::{depths_of, faces_of, near_held};
use crate::stack::stack;
use dpl_list::{Grouped, Items};
use std::alloc::{AllocError, Global};

/// Sets over members that hold faces: the members of each set, each with the values of the sets inside
/// that hold it, the set's value, and for each member the faces that it holds, each with how far it is.
#[derive(Clone, Copy)]
pub struct Surface<'a> {
    pub ends: &'a Grouped<(u32, u128)>,
    pub values: &'a [u64],
    pub spots: &'a Grouped<(u32, u64)>,
}

/// Adds what is near one set, and the moats round it.
fn lay_one(
    alloc: Global,
    surface: &Surface<'_>,
    set: usize,
    sets: &mut Vec<Near>,
    levels: &mut Vec<Level>,
) -> Result<(), AllocError>
    requires surface { IsSurface surface.now }
    requires set { set < length surface.now.ends.now }
    requires laid { AreLaid sets.old.items levels.old.items }
    ensures laid { OnOk result (AreLaid sets.new.items levels.new.items) }
    ensures moats { OnOk result ((f : Sets) (point : ℕ → Point) (faces : List ℕ) →
        IsTable f surface.now.ends.now surface.now.values.now →
        IsAfloat f point faces surface.now.spots.now →
        AreStacked (layers_of f) (fars f point) faces set 0 (moats_of sets.old.items levels.old.items) →
        AreStacked (layers_of f) (fars f point) faces (set + 1) 0
        (moats_of sets.new.items levels.new.items)) }
{
    let value = surface.values[set];
    if value == 0 {
        return Ok(());
    }
    let near = near_held(alloc, surface.ends.row(set), surface.spots, value)?;
    let faces = faces_of(alloc, &near)?;
    let depths = depths_of(alloc, &near)?;
    stack(alloc, &depths, value, sets.len(), levels)?;
    sets.push(Near {
        faces: Items::new(faces),
        depths: Items::new(depths),
    })?;
    Ok(())
}

/// The moats round all sets.
pub fn lay(alloc: Global, surface: &Surface<'_>) -> Result<Moats, AllocError>
    requires { IsSurface surface.now }
    ensures { IfOk result (λ m. (f : Sets) (point : ℕ → Point) (faces : List ℕ) →
        IsTable f surface.now.ends.now surface.now.values.now →
        IsAfloat f point faces surface.now.spots.now →
        AreStacked (layers_of f) (fars f point) faces (2 * f.size) 0 m) }
{
    let mut sets = Vec::new(alloc);
    let mut levels = Vec::new(alloc);
    for set in 0..surface.values.len() {
        lay_one(alloc, surface, set, &mut sets, &mut levels)?;
    }
    Ok(Moats::new(sets, levels))
}
