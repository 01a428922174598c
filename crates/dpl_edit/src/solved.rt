// The net of a content and its optimum.
ghost use Rattle.std.specs.Prelude.{◌≡◌, ◌⊎◌, ◌≤◌, length, take, IfOk, IfErr, OnOk};
ghost use Rattle.dpl_limits.specs.declared.TheConstants.{MOST_EDGES};
ghost use Rattle.dpl_cell.specs.Layers.{cells_of};
ghost use Rattle.dpl_solve.specs.Solved.{IsSolution};
ghost use Rattle.dpl_layer.specs.Reasons.{FirstOf};
ghost use Rattle.dpl_layer.specs.Refusals.{cells_reasons};
ghost use Rattle.dpl_edit.specs.Contents.{content, Refuses};
ghost use Rattle.dpl_edit.specs.Optima.{IsSolved, IsSolvedContent, AreSolved, AreKnown, solved_of};

use crate::contents::push_boxes;
use crate::placed::Placed;
use crate::recalling::places;
use crate::weighing::weigh;
use dpl_cell::{Layout, Rect};
use dpl_layer::{Drawing, Layer, LayerError, layer_of};
use dpl_limits::Counted;
use dpl_list::Items;
use dpl_options::Options;
use dpl_solve::Solution;
use dpl_sum::{SolvedPart, solve_again};
use std::alloc::{AllocError as NoMemory, Global};
use std::mem;

/// The fragments and the net of a content, an optimum of the net, and one of each of its components.
#[derive(Drop)]
pub struct Solved {
    pub layer: Layer,
    pub solution: Solution,
    pub parts: Vec<SolvedPart>,
}

/// The optimum of the net of a layer, where optima of old components may be known. The old net comes with the
/// rectangles of its nodes.
fn solve_layer(
    alloc: Global,
    layer: &Layer,
    old_rects: &[Rect],
    known: &[SolvedPart],
) -> Result<dpl_sum::Solved, NoMemory>
    requires edges { length layer.now.net.graph.edges ≤ MOST_EDGES }
    requires known { AreKnown old_rects.now known.now }
    ensures solved { IfOk result (λ r. IsSolution layer.now.net r.solution.colours.items
        r.solution.cost r.solution.aside r.solution.excess r.solution.cycles r.solution.bound) }
    ensures parts { IfOk result (λ r. AreSolved r.parts.items) }
{
    let rects = layer.fragments.rects.as_slice();
    let places = places(alloc, rects, old_rects, known)?;
    solve_again(alloc, &layer.net, known, places.as_slice())
}

/// The optimum of a drawing.
fn solve_drawing(
    alloc: Global,
    drawing: &Drawing,
    options: &Options,
    old_rects: &[Rect],
    known: &[SolvedPart],
) -> Result<Solved, LayerError>
    requires { AreKnown old_rects.now known.now }
    ensures solved { IfOk result (λ s. IsSolved options.now (cells_of drawing.now.layer)
        (cells_of drawing.now.keep) (solved_of s)) }
    ensures parts { IfOk result (λ s. AreSolved s.parts.items) }
    ensures refused { IfErr result (λ e. (e ≡ LayerError.NoMemory) ⊎
        FirstOf (cells_reasons options.now (cells_of drawing.now.layer)
        (cells_of drawing.now.keep)) e) }
{
    let layer = match layer_of(alloc, drawing, options) {
        Ok(layer) => layer,
        Err(error) => return Err(error),
    };
    match solve_layer(alloc, &layer, old_rects, known) {
        Ok(solved) => {
            let dpl_sum::Solved { solution, parts } = solved;
            Ok(Solved {
                layer,
                solution,
                parts,
            })
        }
        Err(_) => Err(LayerError::NoMemory),
    }
}

/// The same, where there are not too many primitives.
fn solve_few(
    alloc: Global,
    drawing: &Drawing,
    options: &Options,
    old_rects: &[Rect],
    known: &[SolvedPart],
) -> Result<Solved, LayerError>
    requires { AreKnown old_rects.now known.now }
    ensures solved { IfOk result (λ s. IsSolvedContent options.now drawing.now.layer.prims
        drawing.now.keep.prims (solved_of s)) }
    ensures parts { IfOk result (λ s. AreSolved s.parts.items) }
    ensures refused { IfErr result (λ e. (e ≡ LayerError.NoMemory) ⊎
        Refuses options.now drawing.now.layer.prims drawing.now.keep.prims e) }
{
    let count = weigh(drawing.layer.prims.as_slice());
    if count > Counted::Primitives.most() {
        return Err(LayerError::Limit {
            kind: Counted::Primitives.number(),
            count,
        });
    }
    match solve_drawing(alloc, drawing, options, old_rects, known) {
        Ok(solved) => Ok(solved),
        Err(error) => Err(error),
    }
}

/// Puts the boxes behind the primitives of a layout.
fn put_behind(alloc: Global, layout: &mut Layout, boxes: &[Placed]) -> Result<(), NoMemory>
    ensures pushed { OnOk result (layout.new.prims ≡ content layout.old.prims boxes.now) }
    ensures kept { take (length layout.old.prims) layout.new.prims ≡ layout.old.prims }
{
    let mut prims = mem::replace(&mut layout.prims, Items::new(Vec::new(alloc))).into_vec();
    let pushed = push_boxes(&mut prims, boxes);
    layout.prims = Items::new(prims);
    pushed
}

/// Leaves so many primitives of a layout.
fn leave(alloc: Global, layout: &mut Layout, count: usize)
    ensures { layout.new.prims ≡ take count layout.old.prims }
{
    let mut prims = mem::replace(&mut layout.prims, Items::new(Vec::new(alloc))).into_vec();
    prims.truncate(count);
    layout.prims = Items::new(prims);
}

/// The optimum of a drawing and the boxes, which stay behind its primitives.
fn solve_together(
    alloc: Global,
    drawing: &mut Drawing,
    boxes: &[Placed],
    options: &Options,
    old_rects: &[Rect],
    known: &[SolvedPart],
) -> Result<Solved, LayerError>
    requires { AreKnown old_rects.now known.now }
    ensures kept { take (length drawing.old.layer.prims) drawing.new.layer.prims
        ≡ drawing.old.layer.prims }
    ensures keep { drawing.new.keep.prims ≡ drawing.old.keep.prims }
    ensures solved { IfOk result (λ s. IsSolvedContent options.now
        (content drawing.old.layer.prims boxes.now) drawing.old.keep.prims (solved_of s)) }
    ensures parts { IfOk result (λ s. AreSolved s.parts.items) }
    ensures refused { IfErr result (λ e. (e ≡ LayerError.NoMemory) ⊎ Refuses options.now
        (content drawing.old.layer.prims boxes.now) drawing.old.keep.prims e) }
{
    match put_behind(alloc, &mut drawing.layer, boxes) {
        Ok(()) => solve_few(alloc, drawing, options, old_rects, known),
        Err(_) => Err(LayerError::NoMemory),
    }
}

/// The optimum of a drawing and the boxes that were added to its chosen layer. Optima of the components of an old net are
/// known, and the rectangles of its nodes; only what is none of these components is solved.
pub fn solve_content(
    alloc: Global,
    drawing: &mut Drawing,
    boxes: &[Placed],
    options: &Options,
    old_rects: &[Rect],
    known: &[SolvedPart],
) -> Result<Solved, LayerError>
    requires { AreKnown old_rects.now known.now }
    ensures same { drawing.new.layer.prims ≡ drawing.old.layer.prims }
    ensures keep { drawing.new.keep.prims ≡ drawing.old.keep.prims }
    ensures solved { IfOk result (λ s. IsSolvedContent options.now
        (content drawing.old.layer.prims boxes.now) drawing.old.keep.prims (solved_of s)) }
    ensures parts { IfOk result (λ s. AreSolved s.parts.items) }
    ensures refused { IfErr result (λ e. (e ≡ LayerError.NoMemory) ⊎ Refuses options.now
        (content drawing.old.layer.prims boxes.now) drawing.old.keep.prims e) }
{
    let count = drawing.layer.prims.as_slice().len();
    let result = solve_together(alloc, drawing, boxes, options, old_rects, known);
    leave(alloc, &mut drawing.layer, count);
    result
}
