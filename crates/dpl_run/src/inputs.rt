// What a command reads.
ghost use Rattle.std.specs.Prelude.{◌≡◌, ◌≢◌, ◌⊎◌, ◌≤◌, true, length, IfOk, IfErr, Err};
ghost use Rattle.dpl_limits.specs.declared.TheConstants.{MOST_LAYOUT_BYTES};
ghost use Rattle.dpl_lex.specs.Cutting.{commands_of};
ghost use Rattle.dpl_ext.specs.Reading.{IsWhole};
ghost use Rattle.dpl_run.specs.Inputs.{reads_layout as do_read_layout, opens};
ghost use Rattle.dpl_run.specs.Devices.{IsAbsent, IsLayoutTouched, IsSecondTouched};
ghost use Rattle.dpl_run.specs.Telling.{IsSecondRead, IsSmall, StopsOpening, StopsReading};

use crate::status::Status;
use crate::texts::{layout_of, no_layout, second_of};
use dpl_ext::{Shelf, Source};
use dpl_lex::types::Lexed;
use dpl_limits::Counted;
use dpl_words::{Command, Work};
use std::alloc::Global;

/// Whether a command reads the layout.
pub fn reads_layout(command: &Command) -> bool
    ensures { result ≡ do_read_layout command.now }
{
    match command {
        Command::Layout { .. } => true,
        Command::Load { .. } => false,
    }
}

/// The layout, where it is read.
pub fn layout_for<S: Source>(alloc: Global, is_read: bool, layout: &mut S) -> Result<Lexed, Status>
    ensures whole { IfOk result (λ l. is_read ≡ true →
        IsWhole (S.seen layout.old) (S.seen layout.new) l.text.items MOST_LAYOUT_BYTES) }
    ensures short { IfOk result (λ l. length l.text.items ≤ MOST_LAYOUT_BYTES) }
    ensures commands { IfOk result (λ l. l.commands ≡ commands_of l.text.items) }
    ensures stops { IfErr result (λ status. (is_read ≡ true) ×
        StopsReading (S.seen layout.old) (S.seen layout.new) 1 MOST_LAYOUT_BYTES status) }
    ensures touched { IsLayoutTouched is_read (S.seen layout.old) (S.seen layout.new) }
    ensures steady { result ≢ Err Status.ReadFault → result ≢ Err Status.NoMemory →
        (S.seen layout.new).faults ≡ (S.seen layout.old).faults }
{
    if !is_read {
        return Ok(no_layout(alloc));
    }
    layout_of(alloc, layout)
}

/// The text that a command opens, where it opens one.
pub fn second_for<F: Shelf>(
    alloc: Global,
    command: &Command,
    second: &mut F,
) -> Result<Vec<u8>, Status>
    ensures read { IfOk result (λ v.
        IsSecondRead (opens command.now) (F.texts second.old) v.items) }
    ensures small { IfOk result (λ v. IsSmall (opens command.now) v.items) }
    ensures stops { IfErr result (StopsOpening (opens command.now)
        (F.seen second.old) (F.seen second.new) (F.texts second.old)) }
    ensures absent { IsAbsent (opens command.now) (F.texts second.old) →
        (result ≡ Err Status.ReadFault) ⊎ (result ≡ Err Status.NoMemory) }
    ensures touched { IsSecondTouched (opens command.now) (F.seen second.old)
        (F.seen second.new) }
    ensures steady { result ≢ Err Status.ReadFault → result ≢ Err Status.NoMemory →
        (F.seen second.new).faults ≡ (F.seen second.old).faults }
{
    let Command::Layout { work, .. } = command else {
        return Ok(Vec::new(alloc));
    };
    match work {
        Work::Check(report) => second_of(alloc, report.as_str(), Counted::ReportBytes, second),
        Work::Edit(script) => second_of(alloc, script.as_str(), Counted::ScriptBytes, second),
        _ => Ok(Vec::new(alloc)),
    }
}
