//! The parts of a dual.

ghost use Rattle.std.specs.Prelude.{◌≡◌, length, map, IfOk};
ghost use Rattle.dpl_dual.specs.Duals.{AreWays, AreParts};

use crate::crosses::Cross;
use dpl_classes::classes;
use std::alloc::{AllocError, Global};

/// The two faces of each way.
fn sides(alloc: Global, ways: &[Cross]) -> Result<Vec<(u32, u32)>, AllocError>
    ensures { IfOk result (λ v. v.items ≡ map (λ x. (x.f, x.g)) ways.now) }
{
    let mut sides = Vec::with_capacity(alloc, ways.len())?;
    for way in ways {
        sides.push((way.f, way.g))?;
    }
    Ok(sides)
}

/// For each face the number of its part. Parts are numbered from 0 in the order of their least
/// faces.
pub fn parts(alloc: Global, ways: &[Cross], faces: u32) -> Result<Vec<u32>, AllocError>
    requires { AreWays faces ways.now }
    ensures length { IfOk result (λ v. length v.items ≡ faces) }
    ensures each { IfOk result (λ v. AreParts faces ways.now v.items) }
{
    let sides = sides(alloc, ways)?;
    let (part, _) = classes(alloc, faces as usize, &sides)?;
    Ok(part)
}
