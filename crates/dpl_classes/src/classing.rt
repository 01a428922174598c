// The classes of numbers under pairs.
ghost use Rattle.std.specs.Prelude.{ℕ, ◌<◌, ◌^◌, All, IfOk};
ghost use Rattle.dpl_classes.specs.Classes.{AreClasses};

use crate::numbering::labels;
use crate::rooting::roots;
use std::alloc::{AllocError as NoMemory, Global};

/// The classes of the numbers below `n` under pairs: the class of each number, and how many classes there are.
/// Two numbers are of one class where a chain of pairs joins them, and classes are numbered from 0 in the order of
/// their least members. The time is near linear in the numbers and pairs.
pub fn classes(alloc: Global, n: usize, pairs: &[(u32, u32)]) -> Result<(Vec<u32>, u32), NoMemory>
    requires few { n < 2 ^ 32 }
    requires within { All (λ p. (p.0 < n) × (p.1 < n)) pairs.now }
    ensures { IfOk result (λ p. AreClasses pairs.now n p.0.items p.1) }
{
    let roots = roots(alloc, n, pairs)?;
    labels(alloc, roots.as_slice())
}
