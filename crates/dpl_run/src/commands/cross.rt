// `cross`: what keeps the drawing of a layer from being plane.
ghost use Rattle.std.specs.Prelude.{◌≡◌, ◌≤◌, length, IfOk};
ghost use Rattle.dpl_limits.specs.declared.TheConstants.{MOST_LAYOUT_BYTES};
ghost use Rattle.dpl_lex.specs.Cutting.{commands_of};
ghost use Rattle.dpl_layer.specs.Reasons.{FirstOf};
ghost use Rattle.dpl_layer.specs.Refusals.{layer_reasons};
ghost use Rattle.dpl_run.specs.due.Cross.{IsCrossed, TellsDrawing};
ghost use Rattle.dpl_run.specs.due.Made.{IsMade};
ghost use Rattle.dpl_run.specs.Telling.{IsWorked};

use crate::due::{Due, bare, refused};
use crate::lines::cross_lines;
use crate::status::Status;
use dpl_euler::{crossing, drawn};
use dpl_layer::{Layer, layer_of_commands};
use dpl_lex::types::Commands;
use dpl_options::Options;
use std::alloc::{AllocError, Global};

/// What is due for the bytes of a layout with its commands.
pub fn cross_bytes(alloc: Global, options: &Options, text: &[u8], commands: &Commands) -> Due
    requires short { length text.now ≤ MOST_LAYOUT_BYTES }
    requires commands { commands.now ≡ commands_of text.now }
    ensures { IsWorked (IsMade (FirstOf (layer_reasons options.now text.now))
        (IsCrossed options.now text.now)) result.status result.output.items }
{
    let layer = match layer_of_commands(alloc, text, commands, options) {
        Ok(layer) => layer,
        Err(error) => return refused(alloc, error),
    };
    match lines_of(alloc, &layer) {
        Ok(output) => Due {
            status: Status::Done,
            output,
        },
        Err(_) => bare(alloc, Status::NoMemory),
    }
}

/// The lines that tell of the drawing of a layer.
fn lines_of(alloc: Global, layer: &Layer) -> Result<Vec<u8>, AllocError>
    requires { layer.now.net.graph.nodes ≡ length layer.now.fragments.rects }
    ensures { IfOk result (λ v. TellsDrawing layer.now.fragments layer.now.net v.items) }
{
    let crossing = crossing(alloc, &layer.fragments, &layer.net)?;
    let drawn = drawn(alloc, &layer.net)?;
    let lines = cross_lines(alloc, drawn.excess, &crossing, &drawn.bar)?;
    Ok(lines)
}
