// `split`, `balance` and `refine`: the report of a layer, one whose masks cover about the same area, and one with fewer
// conflicts where something is set aside.
ghost use Rattle.std.specs.Prelude.{◌≡◌, ◌≤◌, [], length, IfOk, IfErr};
ghost use Rattle.dpl_limits.specs.declared.TheConstants.{MOST_LAYOUT_BYTES};
ghost use Rattle.dpl_lex.specs.Cutting.{commands_of};
ghost use Rattle.dpl_layer.specs.Reasons.{FirstOf};
ghost use Rattle.dpl_layer.specs.Refusals.{layer_reasons};
ghost use Rattle.dpl_core.specs.Reports.{IsSplit, IsBalancedSplit, IsRefinedSplit};
ghost use Rattle.dpl_run.specs.due.Made.{IsMade};
ghost use Rattle.dpl_run.specs.Errors.{status_of};
ghost use Rattle.dpl_run.specs.Telling.{IsWorked};

use crate::due::{Due, refused};
use crate::status::Status;
use dpl_core::{balance_commands, refine_commands, split_commands};
use dpl_layer::LayerError;
use dpl_lex::types::Commands;
use dpl_options::Options;
use std::alloc::Global;

/// What is due for `split` of the bytes of a layout with its commands.
pub fn split_bytes(alloc: Global, options: &Options, text: &[u8], commands: &Commands) -> Due
    requires short { length text.now ≤ MOST_LAYOUT_BYTES }
    requires commands { commands.now ≡ commands_of text.now }
    ensures { IsWorked (IsMade (FirstOf (layer_reasons options.now text.now))
        (IsSplit options.now text.now)) result.status result.output.items }
{
    let made = split_commands(alloc, text, commands, options);
    reported(alloc, made)
}

/// What is due for `balance` of the bytes of a layout with its commands.
pub fn balance_bytes(alloc: Global, options: &Options, text: &[u8], commands: &Commands) -> Due
    requires short { length text.now ≤ MOST_LAYOUT_BYTES }
    requires commands { commands.now ≡ commands_of text.now }
    ensures { IsWorked (IsMade (FirstOf (layer_reasons options.now text.now))
        (IsBalancedSplit options.now text.now)) result.status result.output.items }
{
    let made = balance_commands(alloc, text, commands, options);
    reported(alloc, made)
}

/// What is due for `refine` of the bytes of a layout with its commands.
pub fn refine_bytes(alloc: Global, options: &Options, text: &[u8], commands: &Commands) -> Due
    requires short { length text.now ≤ MOST_LAYOUT_BYTES }
    requires commands { commands.now ≡ commands_of text.now }
    ensures { IsWorked (IsMade (FirstOf (layer_reasons options.now text.now))
        (IsRefinedSplit options.now text.now)) result.status result.output.items }
{
    let made = refine_commands(alloc, text, commands, options);
    reported(alloc, made)
}

/// What is due for a report that was made, or for the refusal in its place.
fn reported(alloc: Global, made: Result<Vec<u8>, LayerError>) -> Due
    ensures done { IfOk made (λ v. (result.status ≡ Status.Done) × (result.output.items ≡ v.items)) }
    ensures refused { IfErr made (λ e. (result.status ≡ status_of e) × (result.output.items ≡ [])) }
{
    match made {
        Ok(output) => Due {
            status: Status::Done,
            output,
        },
        Err(error) => refused(alloc, error),
    }
}
