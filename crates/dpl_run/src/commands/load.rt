// `load`: the numbers of the report of a made layout.
ghost use Rattle.std.specs.Prelude.{◌+◌, ◌≡◌, ◌⊎◌, ◌≤◌, ◌^◌, [], length};
ghost use Rattle.dpl_gen.specs.Layout.{layout};
ghost use Rattle.dpl_report.specs.Plain.{plain_report};
ghost use Rattle.dpl_report.specs.Valid.{IsReport};
ghost use Rattle.dpl_layer.specs.Reasons.{FirstOf};
ghost use Rattle.dpl_layer.specs.Refusals.{layer_reasons};
ghost use Rattle.dpl_run.specs.due.Load.{IsLoaded, loaded_line, made_options};
ghost use Rattle.dpl_run.specs.due.Made.{IsMade};
ghost use Rattle.dpl_run.specs.Telling.{IsWorked};

use crate::due::{Due, bare, refused};
use crate::lines::{Told, load_line};
use crate::status::Status;
use dpl_core::make;
use dpl_gen::layout as made_layout;
use dpl_lex::Name;
use dpl_options::{Options, Weights};
use dpl_report::Report;
use std::alloc::Global;

/// What is due for a made layout: layer M, spacing 100, overlap 20, the usual weights, and nothing is kept.
pub fn load_made(alloc: Global, start: u64, rows: u32, columns: u32) -> Due
    requires start { start ≤ 10 ^ 12 }
    requires rows { (1 ≤ rows) × (rows ≤ 200) }
    requires columns { (1 ≤ columns) × (columns ≤ 200) }
    ensures { IsWorked (IsMade (FirstOf (layer_reasons made_options (layout start rows columns)))
        (IsLoaded made_options (layout start rows columns))) result.status
        result.output.items }
{
    let text = match made_layout(alloc, start, rows, columns) {
        Ok(text) => text,
        Err(_) => return bare(alloc, Status::NoMemory),
    };
    let options = options_of_made();
    match make(alloc, text.as_slice(), &options) {
        Ok(report) => told(alloc, &report),
        Err(error) => refused(alloc, error),
    }
}

/// The options of a made layout.
fn options_of_made() -> Options
    ensures { result ≡ made_options }
{
    let layer = match Name::new(b"M") {
        Some(layer) => layer,
        None => unreachable!(),
    };
    Options::new(layer, 100, 20, Weights::usual(), None)
}

/// The line of a report of a made layout.
fn told(alloc: Global, report: &Report) -> Due
    requires { IsReport (plain_report report.now) }
    ensures done { result.status ≡ Status.Done →
        result.output.items ≡ loaded_line (plain_report report.now) }
    ensures only { (result.status ≡ Status.Done) ⊎
        ((result.status ≡ Status.NoMemory) × (result.output.items ≡ [])) }
{
    let counts = &report.counts;
    let line = load_line(
        alloc,
        Told {
            fragments: counts.fragments,
            edges: counts.bonds + counts.stitches + counts.clashes,
            cost: report.cost,
            bound: report.bound,
            aside: report.aside.as_slice().len() as u64,
        },
    );
    match line {
        Ok(output) => Due {
            status: Status::Done,
            output,
        },
        Err(_) => bare(alloc, Status::NoMemory),
    }
}
