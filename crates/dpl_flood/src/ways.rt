//! The ways at each face, with their numbers.

ghost use Rattle.std.specs.Prelude.{◌≡◌, ℕ, ◌+◌, ◌<◌, ◌^◌, length, All, IfOk, OnOk};
ghost use Rattle.dpl_dual.specs.Duals.{way_at};
ghost use Rattle.dpl_flood.specs.Steps.{step_rows, AreListed};

use dpl_dual::Cross;
use dpl_list::Grouped;
use std::alloc::{AllocError, Global};

/// What a way is from a face: the face beyond it, and its number.
#[derive(Clone, Copy, Debug)]
pub struct Step {
    pub to: u32,
    pub way: u32,
}

/// The way of a number.
pub(crate) fn way_of(ways: &[Cross], number: u32) -> Cross
    requires { number < length ways.now }
    ensures { result ≡ way_at ways.now number }
{
    ways[number as usize]
}

/// Lists the steps over the way of a number at its two faces, unless they are one face.
fn list(
    ways: &[Cross],
    number: u32,
    keys: &mut Vec<u32>,
    steps: &mut Vec<Step>,
) -> Result<(), AllocError>
    requires inside { number < length ways.now }
    ensures { (faces : ℕ) → (way_at ways.now number).f < faces → (way_at ways.now number).g < faces →
        AreListed faces ways.now number keys.old.items steps.old.items →
        OnOk result (AreListed faces ways.now (number + 1) keys.new.items steps.new.items) }
{
    let way = ways[number as usize];
    let (f, g) = (way.f, way.g);
    if f == g {
        return Ok(());
    }
    keys.push(f)?;
    steps.push(Step { to: g, way: number })?;
    keys.push(g)?;
    steps.push(Step { to: f, way: number })?;
    Ok(())
}

/// For each face the steps over the ways at it that lead to another one, in the order of the ways. It costs the ways and
/// the faces.
pub fn steps_at(alloc: Global, ways: &[Cross], faces: u32) -> Result<Grouped<Step>, AllocError>
    requires inside { All (λ x. (x.f < faces) × (x.g < faces)) ways.now }
    requires few { length ways.now < 2 ^ 32 }
    ensures { IfOk result (λ r. r ≡ step_rows ways.now faces) }
{
    let mut keys = Vec::new(alloc);
    let mut steps = Vec::new(alloc);
    for i in 0..ways.len() as u32 {
        list(ways, i, &mut keys, &mut steps)?;
    }
    Grouped::by_key(alloc, faces, &keys, &steps)
}
