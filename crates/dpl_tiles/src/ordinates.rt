// The rows at which the corners of primitives stand. Rows between neighbours have the same cells.
ghost use Rattle.std.specs.Prelude.{◌≡◌, IfOk, map};

use crate::corners::Corner;
use std::alloc::{AllocError, Global};

/// The ordinates of corners, in their order.
pub fn ordinates(alloc: Global, corners: &[Corner]) -> Result<Vec<i64>, AllocError>
    ensures { IfOk result (λ v. v.items ≡ map (λ c. c.y) corners.now) }
{
    corners.iter().map(|corner| corner.y).collect(alloc)
}
