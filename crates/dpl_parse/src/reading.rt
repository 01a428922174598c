// A whole report, read.
ghost use Rattle.std.specs.Prelude.{◌≡◌, ◌≤◌, ℕ, length, Err, IfOk};
ghost use Rattle.dpl_limits.specs.declared.TheConstants.{MOST_REPORT_BYTES};
ghost use Rattle.dpl_form.specs.Lines.{lines_in};
ghost use Rattle.dpl_form.specs.Readers.{whole, IsFirstWrong};
ghost use Rattle.dpl_parse.specs.Gives.{Gives};
ghost use Rattle.dpl_parse.specs.Tells.{Tells, GivesReport};
ghost use Rattle.dpl_parse.specs.Read.{plain_read};
ghost use Rattle.dpl_report.specs.Plain.{PlainReport};
ghost use Rattle.dpl_report.specs.ReportLines.{report_lines, report_text};
ghost use Rattle.dpl_report.specs.Valid.{IsReport};
ghost use Rattle.dpl_report.specs.Reading as reading;

use crate::bodies::{drawing_of, lists_of};
use crate::boxes::Boxes;
use crate::heads::head_of;
use crate::letters::Letters;
use crate::lines::{Clashes, Cuts};
use crate::stops::{Stop, stop_at};
use dpl_form::{count_lines, first_line};
use dpl_list::Items;
use dpl_report::{Counts, Params};
use dpl_walks::Cycles;
use std::alloc::Global;

/// Why a text is no report.
#[derive(Debug, Drop)]
pub enum ReportError {
    /// The number of the first line that cannot stand where it does.
    NotReport(u64),
    NoMemory,
}

/// What a report says. All its lists but the edges that are set aside stand in its text.
#[derive(Drop)]
pub struct ReadReport<'a> {
    pub params: Params,
    pub counts: Counts,
    pub cost: u64,
    pub bound: u64,
    pub colours: Letters<'a>,
    pub cuts: Cuts<'a>,
    pub clashes: Clashes<'a>,
    pub aside: Items<u32>,
    pub cycles: Cycles<'a>,
    pub on_a: Boxes<'a>,
    pub on_b: Boxes<'a>,
}

#[tactic(auto, unfolding(dpl_report::specs::Reading::read_report))]
fn report_of(alloc: Global, text: &[u8]) -> Result<(ReadReport<'_>, &[u8]), Stop>
    ensures { Gives (λ x. (plain_read x.0, lines_in x.1.now)) result
        (reading.read_report (lines_in text.now)) }
{
    let (head, rest) = head_of(alloc, text)?;
    let (lists, rest) = lists_of(alloc, rest)?;
    let (drawing, rest) = drawing_of(alloc, head.params.layer.bytes(), rest)?;
    let report = ReadReport {
        params: head.params,
        counts: head.counts,
        cost: head.cost,
        bound: head.bound,
        colours: head.colours,
        cuts: lists.cuts,
        clashes: lists.clashes,
        aside: lists.aside,
        cycles: lists.cycles,
        on_a: drawing.on_a,
        on_b: drawing.on_b,
    };
    Ok((report, rest))
}

/// The same with nothing behind it.
fn whole_report(alloc: Global, text: &[u8]) -> Result<ReadReport<'_>, Stop>
    ensures { Gives plain_read result (whole reading.read_report (lines_in text.now)) }
{
    let (report, rest) = report_of(alloc, text)?;
    match first_line(rest) {
        None => Ok(report),
        Some(_) => Err(stop_at(rest)),
    }
}

fn numbered(alloc: Global, text: &[u8]) -> Result<ReadReport<'_>, ReportError>
    requires { length text.now ≤ MOST_REPORT_BYTES }
    ensures { Tells text.now result }
{
    match whole_report(alloc, text) {
        Ok(report) => Ok(report),
        Err(Stop::NoMemory) => Err(ReportError::NoMemory),
        Err(Stop::Line(left)) => {
            let before = count_lines(text).saturating_sub(left);
            Err(ReportError::NotReport(before as u64 + 1))
        }
    }
}

/// The report whose text this is.
pub fn parse<'a>(alloc: Global, text: &'a [u8]) -> Result<ReadReport<'a>, ReportError>
    requires { length text.now ≤ MOST_REPORT_BYTES }
    // What reading gives.
    ensures told { Tells text.now result }
    // What is read is written so.
    ensures found { IfOk result (λ r. IsReport (plain_read r) ×
        (text.now ≡ report_text (plain_read r))) }
    // What is written so is read, unless memory runs out.
    ensures only { (r : PlainReport) → IsReport r → text.now ≡ report_text r → GivesReport r result }
    // Which line cannot stand.
    ensures wrong { (n : ℕ) → result ≡ Err (ReportError.NotReport n) →
        IsFirstWrong report_lines IsReport (lines_in text.now) n }
{
    numbered(alloc, text)
}
