// From a layer to its report.
ghost use Rattle.std.specs.Prelude.{◌≡◌, None, IfOk};
ghost use Rattle.dpl_layer.specs.Layers.{IsSomeLayer};
ghost use Rattle.dpl_report.specs.Plain.{plain_report};
ghost use Rattle.dpl_report.specs.Valid.{IsReport};
ghost use Rattle.dpl_good.specs.Truths.{SaysTrue};
ghost use Rattle.dpl_good.specs.Verdicts.{refusal_of};
ghost use Rattle.dpl_core.specs.Reports.{HaveMasks, CostsLeast, IsReportOfNet, IsTight};

use crate::reporting::report_of;
use dpl_good::{masks_are_of_the_layer, true_reports_are_good, true_reports_are_valid};
use dpl_layer::Layer;
use dpl_options::Options;
use dpl_report::Report;
use dpl_solve::solve;
use std::alloc::{AllocError as NoMemory, Global};

/// The report of the optimum of a layer. Whatever cells the layer is of, its masks are of these.
pub fn report_of_layer(alloc: Global, options: &Options, layer: &Layer) -> Result<Report, NoMemory>
    requires layer { IsSomeLayer options.now layer.now.fragments layer.now.net }
    ensures report { IfOk result (λ r.
        IsReportOfNet options.now layer.now.fragments layer.now.net (plain_report r)) }
    ensures masks { IfOk result (λ r.
        HaveMasks options.now layer.now.fragments layer.now.net (plain_report r)) }
{
    let solution = solve(alloc, &layer.net)?;
    let report = report_of(alloc, options, &layer.fragments, &layer.net, solution)?;
    report_is_of_the_layer(options, layer, &report);
    Ok(report)
}

/// A report that says the truth of a layer, and is tight and the least, is the report of that layer. It is a fact
/// about the definitions; nothing runs.
pub fn report_is_of_the_layer(options: &Options, layer: &Layer, report: &Report)
    requires layer { IsSomeLayer options.now layer.now.fragments layer.now.net }
    requires truth { SaysTrue options.now layer.now.fragments layer.now.net
        (plain_report report.now) }
    requires tight { IsTight layer.now.net (plain_report report.now) }
    requires least { CostsLeast layer.now.net (plain_report report.now).head report.now.aside }
    ensures report { IsReportOfNet options.now layer.now.fragments layer.now.net
        (plain_report report.now) }
    ensures masks { HaveMasks options.now layer.now.fragments layer.now.net
        (plain_report report.now) }
{
    true_report_is_of_the_layer(options, layer, report);
}

/// A report that says the truth of a layer is valid and good, and its masks are those of the layer. A fact about the
/// definitions; nothing runs.
pub fn true_report_is_of_the_layer(options: &Options, layer: &Layer, report: &Report)
    requires layer { IsSomeLayer options.now layer.now.fragments layer.now.net }
    requires truth { SaysTrue options.now layer.now.fragments layer.now.net
        (plain_report report.now) }
    // A keep layer stands behind a corner weight alone.
    requires keep { report.now.params.corner ≡ None → report.now.params.keep ≡ None }
    ensures valid { IsReport (plain_report report.now) }
    ensures good { refusal_of options.now layer.now.fragments layer.now.net
        (plain_report report.now) ≡ None }
    ensures masks { HaveMasks options.now layer.now.fragments layer.now.net
        (plain_report report.now) }
{
    true_reports_are_good(options, &layer.fragments, &layer.net, report);
    true_reports_are_valid(options, &layer.fragments, &layer.net, report);
    masks_are_of_the_layer(options, &layer.fragments, &layer.net, report);
}
