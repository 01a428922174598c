// The optimum after an edit.
ghost use Rattle.std.specs.Prelude.{◌≡◌, ◌⊎◌, IfOk, IfErr};
ghost use Rattle.dpl_layer.specs.Drawings.{Cells};
ghost use Rattle.dpl_edit.specs.Contents.{content, Refuses};
ghost use Rattle.dpl_edit.specs.Optima.{IsSolved, IsSomeOptimum, IsSolvedContent, AreSolved, KeepMasks, solved_of};

use crate::placed::Placed;
use crate::solved::{Solved, solve_content};
use dpl_layer::{Drawing, LayerError};
use dpl_options::Options;
use dpl_sign::cost;
use dpl_solve::Solution;
use dpl_stay::{Coloured, keep_colours};
use std::alloc::{AllocError as NoMemory, Global};

/// The new optimum with the old masks on each component that is the same as one before.
fn keep_masks(
    alloc: Global,
    options: &Options,
    old: &Solved,
    new: Solved,
) -> Result<Solved, NoMemory>
    requires old { IsSomeOptimum options.now (solved_of old.now) }
    requires new { IsSomeOptimum options.now (solved_of new) }
    ensures solved { IfOk result (λ s. (cells kept : Cells) →
        IsSolved options.now cells kept (solved_of new) →
        IsSolved options.now cells kept (solved_of s)) }
    ensures parts { IfOk result (λ s. s.parts.items ≡ new.parts.items) }
    ensures kept { IfOk result (λ s. KeepMasks (solved_of old.now) (solved_of s)) }
{
    let _options = options;
    let Solved {
        layer,
        solution,
        parts,
    } = new;
    let before = Coloured {
        rects: old.layer.fragments.rects.as_slice(),
        net: &old.layer.net,
        colours: old.solution.colours.as_slice(),
    };
    let after = Coloured {
        rects: layer.fragments.rects.as_slice(),
        net: &layer.net,
        colours: solution.colours.as_slice(),
    };
    let colours = keep_colours(alloc, &before, &after)?;
    let cost = cost(&layer.net.graph, colours.as_slice());
    let solution = Solution {
        colours,
        cost,
        aside: solution.aside,
        excess: solution.excess,
        cycles: solution.cycles,
        bound: solution.bound,
    };
    Ok(Solved {
        layer,
        solution,
        parts,
    })
}

/// The optimum of a drawing and the boxes, with the old masks on each component that is the same as one before. Only the
/// other components are solved.
pub fn solve_edit(
    alloc: Global,
    drawing: &mut Drawing,
    boxes: &[Placed],
    options: &Options,
    old: &Solved,
) -> Result<Solved, LayerError>
    requires old { IsSomeOptimum options.now (solved_of old.now) }
    requires known { AreSolved old.now.parts.items }
    ensures same { drawing.new.layer.prims ≡ drawing.old.layer.prims }
    ensures keep { drawing.new.keep.prims ≡ drawing.old.keep.prims }
    ensures solved { IfOk result (λ s. IsSolvedContent options.now
        (content drawing.old.layer.prims boxes.now) drawing.old.keep.prims (solved_of s)) }
    ensures parts { IfOk result (λ s. AreSolved s.parts.items) }
    ensures kept { IfOk result (λ s. KeepMasks (solved_of old.now) (solved_of s)) }
    ensures refused { IfErr result (λ e. (e ≡ LayerError.NoMemory) ⊎ Refuses options.now
        (content drawing.old.layer.prims boxes.now) drawing.old.keep.prims e) }
{
    let old_rects = old.layer.fragments.rects.as_slice();
    let known = old.parts.as_slice();
    let solved = match solve_content(alloc, drawing, boxes, options, old_rects, known) {
        Ok(solved) => solved,
        Err(error) => return Err(error),
    };
    match keep_masks(alloc, options, old, solved) {
        Ok(solved) => Ok(solved),
        Err(_) => Err(LayerError::NoMemory),
    }
}
