// `check`: the verdict on a report against a layout.
ghost use Rattle.std.specs.Prelude.{◌≡◌, ◌≤◌, length};
ghost use Rattle.dpl_limits.specs.declared.TheConstants.{MOST_LAYOUT_BYTES, MOST_REPORT_BYTES};
ghost use Rattle.dpl_lex.specs.Cutting.{commands_of};
ghost use Rattle.dpl_run.specs.due.Check.{IsCheckDue};
ghost use Rattle.dpl_run.specs.Telling.{IsWorked};

use crate::due::{Due, bare, refused};
use crate::lines::yes_line;
use crate::status::Status;
use dpl_check::{Verdict, check_commands};
use dpl_lex::types::Commands;
use dpl_options::Options;
use std::alloc::Global;

/// What is due for the bytes of a layout, its commands, and the bytes of a report.
pub fn check_bytes(
    alloc: Global,
    options: &Options,
    text: &[u8],
    commands: &Commands,
    report: &[u8],
) -> Due
    requires text { length text.now ≤ MOST_LAYOUT_BYTES }
    requires commands { commands.now ≡ commands_of text.now }
    requires report { length report.now ≤ MOST_REPORT_BYTES }
    ensures { IsWorked (IsCheckDue options.now text.now report.now) result.status
        result.output.items }
{
    match check_commands(alloc, text, commands, options, report) {
        Ok(Verdict::Yes { cost, bound }) => match yes_line(alloc, cost, bound) {
            Ok(output) => Due {
                status: Status::Done,
                output,
            },
            Err(_) => bare(alloc, Status::NoMemory),
        },
        Ok(
            Verdict::No {
                reason,
                place,
                found,
                wanted,
            },
        ) => bare(
            alloc,
            Status::Rejected {
                reason,
                place,
                found,
                wanted,
            },
        ),
        Err(error) => refused(alloc, error),
    }
}
