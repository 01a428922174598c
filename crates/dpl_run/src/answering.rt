// What is due for a command over its devices.
ghost use Rattle.std.specs.Prelude.{◌+◌, ◌≡◌, ◌≢◌, ℕ, List, Ok};
ghost use Rattle.dpl_limits.specs.declared.TheConstants.{MOST_LAYOUT_BYTES, MOST_REPORT_BYTES, MOST_SCRIPT_BYTES};
ghost use Rattle.dpl_words.specs.Views.{IsInRange};
ghost use Rattle.dpl_run.specs.Inputs.{opens};
ghost use Rattle.dpl_run.specs.Answer.{IsDueOf, IsStatusOf};
ghost use Rattle.dpl_run.specs.Devices.{AreTold, IsAbsent, IsReadFault, IsTouched, IsUnread, PassesBytes};
ghost use Rattle.dpl_run.specs.Telling.{IsBare, IsDueOrFree};

use crate::commands::carry_out;
use crate::due::{Due, bare};
use crate::inputs::{layout_for, reads_layout, second_for};
use crate::status::Status;
use dpl_ext::{Shelf, Source};
use dpl_words::Command;
use std::alloc::Global;

/// What is due for a command: its texts are read, the layout first, and then it is carried out.
pub fn due_for<S: Source, F: Shelf>(
    alloc: Global,
    command: &Command,
    layout: &mut S,
    second: &mut F,
) -> Due
    requires { IsInRange command.now }
    ensures due { (text other : List ℕ)
        → AreTold (Ok command.now) (S.seen layout.old).left (F.texts second.old)
        text other
        → IsDueOrFree (IsDueOf (Ok command.now) text other) result.status
        result.output.items }
    ensures read { result.status ≡ Status.ReadFault →
        IsReadFault (Ok command.now) (S.seen layout.old) (S.seen layout.new)
        (F.seen second.old) (F.seen second.new) }
    ensures limit { (count : ℕ) → result.status ≡ Status.Limit 1 count →
        PassesBytes (MOST_LAYOUT_BYTES + 1) count (S.seen layout.old) (S.seen layout.new) }
    ensures report_limit { (count : ℕ) → result.status ≡ Status.Limit 9 count →
        PassesBytes (MOST_REPORT_BYTES + 1) count (F.seen second.old) (F.seen second.new) }
    ensures script_limit { (count : ℕ) → result.status ≡ Status.Limit 10 count →
        PassesBytes (MOST_SCRIPT_BYTES + 1) count (F.seen second.old) (F.seen second.new) }
    ensures absent { IsAbsent (opens command.now) (F.texts second.old) →
        IsUnread result.status }
    ensures touched { IsTouched (Ok command.now) (S.seen layout.old)
        (S.seen layout.new) (F.seen second.old) (F.seen second.new) }
    ensures steady { result.status ≢ Status.ReadFault → result.status ≢ Status.NoMemory →
        ((S.seen layout.new).faults ≡ (S.seen layout.old).faults) ×
        ((F.seen second.new).faults ≡ (F.seen second.old).faults) }
    ensures bare { IsBare result.status result.output.items }
    ensures of_words { IsStatusOf (Ok command.now) result.status }
{
    let read = match layout_for(alloc, reads_layout(command), layout) {
        Ok(read) => read,
        Err(status) => return bare(alloc, status),
    };
    match second_for(alloc, command, second) {
        Ok(text) => carry_out(
            alloc,
            command,
            read.text.as_slice(),
            &read.commands,
            text.as_slice(),
        ),
        Err(status) => bare(alloc, status),
    }
}
