// `edit`: the report of a layer after a script of edits.
ghost use Rattle.std.specs.Prelude.{◌≡◌, ◌⊎◌, ◌+◌, ◌<◌, ◌≤◌, ◌^◌, ℕ, List, [], length, IfErr, IfOk, OnOk};
ghost use Rattle.dpl_limits.specs.declared.TheConstants.{MOST_LAYOUT_BYTES, MOST_SCRIPT_BYTES};
ghost use Rattle.dpl_lex.specs.Cutting.{commands_of};
ghost use Rattle.dpl_run.specs.due.Edit.{AreEditsDue, IsTaken, IsEditDue, IsScriptDue, Reports, StopsAt, edited, edits_of};
ghost use Rattle.dpl_run.specs.Errors as errors;
ghost use Rattle.dpl_run.specs.Telling.{IsWorked};

use crate::due::{Due, bare, refused, status_of};
use crate::status::Status;
use dpl_cell::Rect;
use dpl_edit::{RemoveError, Session};
use dpl_layer::read_drawing;
use dpl_lex::types::Commands;
use dpl_options::{Options, same_keep, same_name};
use dpl_report::print;
use dpl_words::{Line, ScriptError, script as lines_of};
use std::alloc::{AllocError, Global};

/// What is due for the bytes of a layout with its commands and the bytes of a script.
pub fn edit_bytes(
    alloc: Global,
    options: &Options,
    text: &[u8],
    commands: &Commands,
    script: &[u8],
) -> Due
    requires short { length text.now ≤ MOST_LAYOUT_BYTES }
    requires commands { commands.now ≡ commands_of text.now }
    requires script { length script.now ≤ MOST_SCRIPT_BYTES }
    ensures { IsWorked (IsEditDue options.now text.now script.now) result.status
        result.output.items }
{
    let drawing = match read_drawing(alloc, text, commands, options) {
        Ok(drawing) => drawing,
        Err(error) => return refused(alloc, error),
    };
    let options = same_options(options);
    match Session::new(alloc, drawing, options) {
        Ok(session) => follow(alloc, session, script),
        Err(error) => refused(alloc, error),
    }
}

fn same_options(options: &Options) -> Options
    ensures { result ≡ options.now }
{
    options.in_range();
    Options::new(
        same_name(options.layer()),
        options.space(),
        options.overlap(),
        *options.weights(),
        same_keep(options.keep()),
    )
}

/// What is due for a session to which nothing was added yet, and the bytes of a script.
fn follow(alloc: Global, session: Session, script: &[u8]) -> Due
    requires begun { session.count ≡ 0 }
    requires short { length script.now ≤ MOST_SCRIPT_BYTES }
    ensures { IsWorked (IsScriptDue (edits_of session) script.now) result.status
        result.output.items }
{
    match lines_of(alloc, script) {
        Ok(lines) => applied(alloc, session, lines.as_slice()),
        Err(error) => bare(alloc, of_script(error)),
    }
}

/// What is due for a session and the lines of a script.
fn applied(alloc: Global, session: Session, lines: &[Line]) -> Due
    requires { session.count + length lines.now < 2 ^ 32 }
    ensures { IsWorked (AreEditsDue (edits_of session) 1 lines.now) result.status
        result.output.items }
{
    let mut session = session;
    match apply_all(alloc, &mut session, lines) {
        Ok(()) => {}
        Err(status) => return bare(alloc, status),
    }
    match text_of(alloc, &session) {
        Ok(output) => Due {
            status: Status::Done,
            output,
        },
        Err(_) => bare(alloc, Status::NoMemory),
    }
}

/// The text of a session's report.
fn text_of(alloc: Global, session: &Session) -> Result<Vec<u8>, AllocError>
    ensures { IfOk result (λ v. Reports (edits_of session.now) v.items) }
{
    let report = session.report(alloc)?;
    let text = print(alloc, &report)?;
    Ok(text)
}

/// Applies lines in order, up to the first that stops.
fn apply_all(alloc: Global, session: &mut Session, lines: &[Line]) -> Result<(), Status>
    requires { session.old.count + length lines.now < 2 ^ 32 }
    ensures reports { OnOk result ((output : List ℕ) → Reports (edits_of session.new) output →
        AreEditsDue (edits_of session.old) 1 lines.now Status.Done output) }
    ensures stops { IfErr result (λ status. (status ≡ Status.NoMemory) ⊎
        AreEditsDue (edits_of session.old) 1 lines.now status []) }
{
    let mut number = 1u64;
    let mut rest = lines;
    'lines: while let Some((line, others)) = rest.split_first() {
        match apply(alloc, session, line, number) {
            Ok(()) => {}
            Err(status) => return Err(status),
        }
        number += 1;
        rest = others;
    }
    Ok(())
}

/// Applies the line with this number.
fn apply(alloc: Global, session: &mut Session, line: &Line, number: u64) -> Result<(), Status>
    requires { session.old.count < 2 ^ 32 }
    ensures taken { OnOk result (IsTaken (edits_of session.old) line.now) }
    ensures edits { OnOk result (edits_of session.new ≡ edited line.now (edits_of session.old)) }
    ensures stops { IfErr result (λ status. (status ≡ Status.NoMemory) ⊎
        StopsAt (edits_of session.old) number line.now status []) }
{
    match line {
        Line::Add(rect) => add(alloc, session, *rect),
        Line::Remove(removed) => remove(alloc, session, *removed, number),
    }
}

fn add(alloc: Global, session: &mut Session, rect: Rect) -> Result<(), Status>
    requires { session.old.count < 2 ^ 32 }
    ensures taken { OnOk result (IsTaken (edits_of session.old) (Line.Add rect)) }
    ensures edits { OnOk result (edits_of session.new
        ≡ edited (Line.Add rect) (edits_of session.old)) }
    ensures stops { IfErr result (λ status. (number : ℕ) → (status ≡ Status.NoMemory) ⊎
        StopsAt (edits_of session.old) number (Line.Add rect) status []) }
{
    match session.add(alloc, rect) {
        Ok(_) => Ok(()),
        Err(error) => Err(status_of(error)),
    }
}

fn remove(alloc: Global, session: &mut Session, removed: u64, number: u64) -> Result<(), Status>
    ensures taken { OnOk result (IsTaken (edits_of session.old) (Line.Remove removed)) }
    ensures edits { OnOk result (edits_of session.new
        ≡ edited (Line.Remove removed) (edits_of session.old)) }
    ensures stops { IfErr result (λ status. (status ≡ Status.NoMemory) ⊎
        StopsAt (edits_of session.old) number (Line.Remove removed) status []) }
{
    match session.remove(alloc, removed) {
        Ok(()) => Ok(()),
        Err(error) => Err(of_removal(error, number)),
    }
}

/// Why the line with this number removes no box, as a status.
fn of_removal(error: RemoveError, number: u64) -> Status
    ensures { result ≡ errors.of_removal number error }
{
    match error {
        RemoveError::NoBox(_) => Status::Script {
            line: number,
            kind: 2,
        },
        RemoveError::Refused(error) => status_of(error),
    }
}

/// Why a text is no script, as a status.
fn of_script(error: ScriptError) -> Status
    ensures { result ≡ errors.of_script error }
{
    match error {
        ScriptError::Bad(line) => Status::Script { line, kind: 1 },
        ScriptError::NoMemory => Status::NoMemory,
    }
}
