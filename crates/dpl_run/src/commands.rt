// What is due for each command.
ghost use Rattle.std.specs.Prelude.{◌≡◌, ◌≤◌, length};
ghost use Rattle.dpl_limits.specs.declared.TheConstants.{MOST_LAYOUT_BYTES};
ghost use Rattle.dpl_lex.specs.Cutting.{commands_of};
ghost use Rattle.dpl_words.specs.Views.{IsInRange};
ghost use Rattle.dpl_run.specs.Inputs.{opens};
ghost use Rattle.dpl_run.specs.Answer.{DueOf};
ghost use Rattle.dpl_run.specs.Telling.{IsSmall, IsWorked};

mod check;
mod cross;
mod edit;
mod load;
mod split;

use crate::due::Due;
use check::check_bytes;
use cross::cross_bytes;
use dpl_lex::types::Commands;
use dpl_words::{Command, Work};
use edit::edit_bytes;
use load::load_made;
use split::{balance_bytes, refine_bytes, split_bytes};
use std::alloc::Global;

/// What is due for a command with the layout, its commands, and the second text. What a command does not read is not
/// looked at.
pub fn carry_out(
    alloc: Global,
    command: &Command,
    text: &[u8],
    commands: &Commands,
    second: &[u8],
) -> Due
    requires range { IsInRange command.now }
    requires short { length text.now ≤ MOST_LAYOUT_BYTES }
    requires commands { commands.now ≡ commands_of text.now }
    requires small { IsSmall (opens command.now) second.now }
    ensures { IsWorked (DueOf command.now text.now second.now) result.status
        result.output.items }
{
    match command {
        Command::Layout { options, work } => match work {
            Work::Split => split_bytes(alloc, options, text, commands),
            Work::Balance => balance_bytes(alloc, options, text, commands),
            Work::Refine => refine_bytes(alloc, options, text, commands),
            Work::Cross => cross_bytes(alloc, options, text, commands),
            Work::Check(_) => check_bytes(alloc, options, text, commands, second),
            Work::Edit(_) => edit_bytes(alloc, options, text, commands, second),
        },
        Command::Load {
            start,
            rows,
            columns,
        } => load_made(alloc, *start, *rows, *columns),
    }
}
