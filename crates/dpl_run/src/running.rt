// The program over its devices.
ghost use Rattle.std.specs.Prelude.{◌+◌, ◌≡◌, ◌≢◌, ℕ, List, map, string_bytes};
ghost use Rattle.std.specs.Io.KnownBytes.{Appends};
ghost use Rattle.dpl_limits.specs.declared.TheConstants.{MOST_LAYOUT_BYTES, MOST_REPORT_BYTES, MOST_SCRIPT_BYTES};
ghost use Rattle.dpl_ext.specs.Device.{Rose, AppendsFront};
ghost use Rattle.dpl_words.specs.Commands.{asked_by};
ghost use Rattle.dpl_run.specs.Answer.{Answers, IsDue, IsQuiet, IsStatusOf};
ghost use Rattle.dpl_run.specs.Devices.{AreSteady, AreTold, AskForAbsent, IsReadFault, IsTouched, IsUnread, PassesBytes, Reads};
ghost use Rattle.dpl_run.specs.Lines.{line_of};

use crate::answering::due_for;
use crate::due::tell;
use crate::line::status_line;
use crate::status::Status;
use dpl_ext::{Shelf, Sink, Source, write_all};
use dpl_words::{UsageError, parse};
use std::alloc::Global;

/// Does what the words ask for: every command but `load` reads the layout from `layout`, `check` opens its report and
/// `edit` its script in `second`, and what is due is written to `out`, a line to `err` where the status is not `Done`.
pub fn run<S: Source, F: Shelf, O: Sink, E: Sink>(
    alloc: Global,
    words: &[String],
    layout: &mut S,
    second: &mut F,
    out: &mut O,
    err: &mut E,
) -> Status
    // What the status says of the words, the layout and the report, and what `out` took. What follows of it is said by
    // `one_due`, `some_due`, `split_is_least` and `yes_is_accepted` of `laws`.
    ensures answer { (text report : List ℕ)
        → AreTold (asked_by (map string_bytes words.now)) (S.seen layout.old).left
        (F.texts second.old) text report
        → Answers (IsDue (map string_bytes words.now) text report) (O.taken out.old)
        (O.taken out.new) result }
    ensures quiet { IsQuiet (O.taken out.old) (O.taken out.new) result }

    // What the status says whatever the devices do.
    ensures of_words { IsStatusOf (asked_by (map string_bytes words.now)) result }
    ensures absent { AskForAbsent (asked_by (map string_bytes words.now)) (F.texts second.old) →
        IsUnread result }

    // When a device is to blame, how much was read, and which devices were not touched.
    ensures read { result ≡ Status.ReadFault →
        IsReadFault (asked_by (map string_bytes words.now)) (S.seen layout.old)
        (S.seen layout.new) (F.seen second.old) (F.seen second.new) }
    ensures write { result ≡ Status.WriteFault → Rose (O.faults out.old) (O.faults out.new) }
    ensures limit { (count : ℕ) → result ≡ Status.Limit 1 count →
        PassesBytes (MOST_LAYOUT_BYTES + 1) count (S.seen layout.old) (S.seen layout.new) }
    ensures report_limit { (count : ℕ) → result ≡ Status.Limit 9 count →
        PassesBytes (MOST_REPORT_BYTES + 1) count (F.seen second.old) (F.seen second.new) }
    ensures script_limit { (count : ℕ) → result ≡ Status.Limit 10 count →
        PassesBytes (MOST_SCRIPT_BYTES + 1) count (F.seen second.old) (F.seen second.new) }
    ensures touched { IsTouched (asked_by (map string_bytes words.now)) (S.seen layout.old)
        (S.seen layout.new) (F.seen second.old) (F.seen second.new) }
    ensures steady { result ≢ Status.ReadFault → result ≢ Status.WriteFault
        → result ≢ Status.NoMemory → AreSteady (S.seen layout.old) (S.seen layout.new)
        (F.seen second.old) (F.seen second.new) (O.faults out.old) (O.faults out.new) }

    // What `err` took.
    ensures line { AppendsFront (E.taken err.old) (E.taken err.new) (line_of result) }
    ensures whole_line { ¬ Rose (E.faults err.old) (E.faults err.new) →
        Appends (E.taken err.old) (E.taken err.new) (line_of result) }
{
    let status = attempt(alloc, words, layout, second, out);
    let _ = write_all(err, status_line(status).bytes());
    status
}

fn attempt<S: Source, F: Shelf, O: Sink>(
    alloc: Global,
    words: &[String],
    layout: &mut S,
    second: &mut F,
    out: &mut O,
) -> Status
    ensures answer { (text report : List ℕ)
        → AreTold (asked_by (map string_bytes words.now)) (S.seen layout.old).left
        (F.texts second.old) text report
        → Answers (IsDue (map string_bytes words.now) text report) (O.taken out.old)
        (O.taken out.new) result }
    ensures quiet { IsQuiet (O.taken out.old) (O.taken out.new) result }
    ensures of_words { IsStatusOf (asked_by (map string_bytes words.now)) result }
    ensures absent { AskForAbsent (asked_by (map string_bytes words.now)) (F.texts second.old) →
        IsUnread result }
    ensures reads { Reads (asked_by (map string_bytes words.now)) result (S.seen layout.old)
        (S.seen layout.new) (F.seen second.old) (F.seen second.new) }
    ensures write { result ≡ Status.WriteFault → Rose (O.faults out.old) (O.faults out.new) }
    ensures steady { result ≢ Status.ReadFault → result ≢ Status.WriteFault
        → result ≢ Status.NoMemory → AreSteady (S.seen layout.old) (S.seen layout.new)
        (F.seen second.old) (F.seen second.new) (O.faults out.old) (O.faults out.new) }
{
    let command = match parse(alloc, words) {
        Ok(command) => command,
        Err(UsageError::Usage(kind)) => return Status::Usage(kind),
        Err(UsageError::NoMemory) => return Status::NoMemory,
    };
    let due = due_for(alloc, &command, layout, second);
    tell(out, &due)
}
