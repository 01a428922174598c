//! Walks around the cycles of a permutation.

ghost use Rattle.std.specs.Prelude.{◌<◌, length, slice_index, IfOk};
ghost use Rattle.dpl_drawing.specs.Marks.{LeadsBack};
ghost use Rattle.dpl_euler.specs.Cycles.{IsCycleFrom};

use std::alloc::{AllocError, Global};

/// The numbers of the cycle of `start`, from there on.
pub fn cycle_from(alloc: Global, nexts: &[u32], start: u32) -> Result<Vec<u32>, AllocError>
    requires ring { LeadsBack nexts.now }
    requires start { start < length nexts.now }
    ensures { IfOk result (λ v. IsCycleFrom (slice_index nexts.now) start v.items) }
{
    let mut cycle = Vec::new(alloc);
    let mut place = start;
    loop {
        cycle.push(place)?;
        place = nexts[place as usize];
        if place == start {
            return Ok(cycle);
        }
    }
}
