// Single lines of a report with what follows them.
ghost use Rattle.std.specs.Prelude.{◌≡◌, length, IfOk};
ghost use Rattle.dpl_form.specs.Lines.{lines_in};
ghost use Rattle.dpl_parse.specs.Gives.{Gives};
ghost use Rattle.dpl_report.specs.Reading as reading;

use crate::items::count_in;
use crate::letters::{Letters, letters_in};
use crate::names::{keep_in, layer_in, version_in};
use crate::stops::{Stop, stop_at};
use dpl_form::first_line;
use dpl_lex::Name;
use std::alloc::Global;

/// The number behind this word.
#[tactic(auto, unfolding(dpl_report::specs::Reading::count))]
pub fn count<'a>(alloc: Global, word: &[u8], text: &'a [u8]) -> Result<(u64, &'a [u8]), Stop>
    ensures { Gives (λ x. (x.0, lines_in x.1.now)) result
        (reading.count word.now (lines_in text.now)) }
{
    match first_line(text) {
        None => Err(stop_at(text)),
        Some((line, rest)) => match count_in(alloc, word, line)? {
            None => Err(stop_at(text)),
            Some(number) => Ok((number, rest)),
        },
    }
}

/// What follows exactly this line.
#[tactic(auto, unfolding(dpl_report::specs::Reading::exactly))]
pub fn exactly<'a>(wanted: &[u8], text: &'a [u8]) -> Result<&'a [u8], Stop>
    ensures { Gives (λ x. (tt, lines_in x.now)) result
        (reading.exactly wanted.now (lines_in text.now)) }
{
    match first_line(text) {
        Some((line, rest)) if wanted == line => Ok(rest),
        _ => Err(stop_at(text)),
    }
}

/// The name in the layer line at the front, and what follows it. Its error is that the text begins
/// otherwise, or want of memory.
#[tactic(auto, unfolding(dpl_report::specs::Reading::read_layer))]
pub fn layer(alloc: Global, text: &[u8]) -> Result<(Name, &[u8]), Stop>
    ensures { Gives (λ x. (x.0, lines_in x.1.now)) result (reading.read_layer (lines_in text.now)) }
{
    match first_line(text) {
        None => Err(stop_at(text)),
        Some((line, rest)) => match layer_in(alloc, line)? {
            None => Err(stop_at(text)),
            Some(name) => Ok((name, rest)),
        },
    }
}

/// The letters for so many fragments in the masks line at the front, and what follows it. Its error
/// is that the text begins otherwise.
#[tactic(auto, unfolding(dpl_report::specs::Reading::read_masks))]
pub fn masks(fragments: u64, text: &[u8]) -> Result<(Letters<'_>, &[u8]), Stop>
    ensures { Gives (λ x. (x.0, lines_in x.1.now)) result
        (reading.read_masks fragments (lines_in text.now)) }
{
    match first_line(text) {
        None => Err(stop_at(text)),
        Some((line, rest)) => match letters_in(fragments, line) {
            None => Err(stop_at(text)),
            Some(letters) => Ok((letters, rest)),
        },
    }
}

/// Whether the report is of the second version.
#[tactic(auto, unfolding(dpl_report::specs::Reading::read_version))]
pub fn version(text: &[u8]) -> Result<(bool, &[u8]), Stop>
    ensures { Gives (λ x. (x.0, lines_in x.1.now)) result
        (reading.read_version (lines_in text.now)) }
{
    match first_line(text) {
        None => Err(stop_at(text)),
        Some((line, rest)) => match version_in(line) {
            None => Err(stop_at(text)),
            Some(second) => Ok((second, rest)),
        },
    }
}

/// The keep layer, where there is one.
#[tactic(auto, unfolding(dpl_report::specs::Reading::read_keep))]
pub fn keep(alloc: Global, text: &[u8]) -> Result<(Option<Name>, &[u8]), Stop>
    ensures { Gives (λ x. (x.0, lines_in x.1.now)) result (reading.read_keep (lines_in text.now)) }
{
    match first_line(text) {
        None => Ok((None, text)),
        Some((line, rest)) => match keep_in(alloc, line)? {
            None => Ok((None, text)),
            Some(name) => Ok((Some(name), rest)),
        },
    }
}
