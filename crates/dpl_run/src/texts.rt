// Reading a text whole.
ghost use Rattle.std.specs.Prelude.{◌≡◌, ◌≢◌, ◌⊎◌, ◌<◌, ◌≤◌, ◌^◌, [], length, IfOk, IfErr, Some, None, Err};
ghost use Rattle.dpl_limits.specs.declared.TheConstants.{MOST_LAYOUT_BYTES};
ghost use Rattle.dpl_limits.specs.Limits.{number_of, most_of};
ghost use Rattle.dpl_lex.specs.Cutting.{commands_of};
ghost use Rattle.dpl_ext.specs.Device.{Texts, first_text};
ghost use Rattle.dpl_ext.specs.Reading.{IsWhole};
ghost use Rattle.dpl_run.specs.Devices.{AsksFor};
ghost use Rattle.dpl_run.specs.Telling.{StopsReading, StopsSecond};

use crate::feeding::Feeder;
use crate::status::Status;
use dpl_ext::{OpenEnd, ReadEnd, Shelf, Source, read_all, read_each};
use dpl_lex::Lexer;
use dpl_lex::types::Lexed;
use dpl_limits::{Counted, MOST_LAYOUT_BYTES};
use std::alloc::Global;

/// All that is left of a source, or the status where that is not to be had.
pub fn text_of<S: Source>(
    alloc: Global,
    source: &mut S,
    counted: Counted,
) -> Result<Vec<u8>, Status>
    requires { most_of counted < 2 ^ 32 }
    ensures whole { IfOk result (λ v.
        IsWhole (S.seen source.old) (S.seen source.new) v.items (most_of counted)) }
    ensures stops { IfErr result (StopsReading (S.seen source.old) (S.seen source.new)
        (number_of counted) (most_of counted)) }
    ensures asked { (S.seen source.new).asked ≡ (S.seen source.old).asked }
    ensures steady { result ≢ Err Status.ReadFault → result ≢ Err Status.NoMemory →
        (S.seen source.new).faults ≡ (S.seen source.old).faults }
{
    let most = counted.most();
    match read_all(alloc, source, most) {
        Ok(text) => Ok(text),
        Err(ReadEnd::Fault) => Err(Status::ReadFault),
        Err(ReadEnd::TooLong) => Err(Status::Limit {
            kind: counted.number(),
            count: most + 1,
        }),
        Err(ReadEnd::NoMemory) => Err(Status::NoMemory),
    }
}

/// The text that a shelf has under a name, or the status where that is not to be had.
pub fn second_of<F: Shelf>(
    alloc: Global,
    name: &str,
    counted: Counted,
    second: &mut F,
) -> Result<Vec<u8>, Status>
    requires { most_of counted < 2 ^ 32 }
    ensures read { IfOk result (λ v. (ts : Texts) → F.texts second.old ≡ Some ts →
        first_text name.now ts ≡ Some v.items) }
    ensures small { IfOk result (λ v. length v.items ≤ most_of counted) }
    ensures stops { IfErr result (StopsSecond (record { name = name.now; counted = counted })
        (F.seen second.old) (F.seen second.new) (F.texts second.old)) }
    ensures absent { (ts : Texts) → F.texts second.old ≡ Some ts → first_text name.now ts ≡ None →
        (result ≡ Err Status.ReadFault) ⊎ (result ≡ Err Status.NoMemory) }
    ensures touched { AsksFor name.now (F.seen second.old) (F.seen second.new) }
    ensures steady { result ≢ Err Status.ReadFault → result ≢ Err Status.NoMemory →
        (F.seen second.new).faults ≡ (F.seen second.old).faults }
{
    match second.open(name) {
        Ok(()) => text_of(alloc, second, counted),
        Err(OpenEnd::Failed) => Err(Status::ReadFault),
        Err(OpenEnd::NoMemory) => Err(Status::NoMemory),
    }
}

/// The layout of no byte, for a command that reads none.
pub fn no_layout(alloc: Global) -> Lexed
    ensures text { result.text.items ≡ [] }
    ensures commands { result.commands ≡ commands_of result.text.items }
{
    Lexer::new(alloc).finish()
}

/// The layout that a source gives, or the status where it is not to be had.
pub fn layout_of<S: Source>(alloc: Global, source: &mut S) -> Result<Lexed, Status>
    ensures whole { IfOk result (λ l.
        IsWhole (S.seen source.old) (S.seen source.new) l.text.items MOST_LAYOUT_BYTES) }
    ensures commands { IfOk result (λ l. l.commands ≡ commands_of l.text.items) }
    ensures stops { IfErr result (StopsReading (S.seen source.old) (S.seen source.new) 1
        MOST_LAYOUT_BYTES) }
    ensures asked { (S.seen source.new).asked ≡ (S.seen source.old).asked }
    ensures steady { result ≢ Err Status.ReadFault → result ≢ Err Status.NoMemory →
        (S.seen source.new).faults ≡ (S.seen source.old).faults }
{
    let lexer = Lexer::new(alloc);
    let mut feeder = Feeder { lexer };
    match read_each(source, MOST_LAYOUT_BYTES, &mut feeder) {
        Ok(()) => {
            let Feeder { lexer } = feeder;
            Ok(lexer.finish())
        }
        Err(ReadEnd::Fault) => Err(Status::ReadFault),
        Err(ReadEnd::TooLong) => Err(Status::Limit {
            kind: Counted::LayoutBytes.number(),
            count: MOST_LAYOUT_BYTES + 1,
        }),
        Err(ReadEnd::NoMemory) => Err(Status::NoMemory),
    }
}
