// The report of a layer with refined colours and cycles.
ghost use Rattle.std.specs.Prelude.{◌≡◌, ◌⊎◌, ◌≤◌, length, IfOk, Err};
ghost use Rattle.dpl_limits.specs.declared.TheConstants.{MOST_LAYOUT_BYTES};
ghost use Rattle.dpl_lex.specs.Cutting.{commands_of};
ghost use Rattle.dpl_layer.specs.Layers.{IsSomeLayer};
ghost use Rattle.dpl_layer.specs.Reasons.{FirstOf};
ghost use Rattle.dpl_cuts.specs.declared.types.Fragments.{Fragments as PlainFragments};
ghost use Rattle.dpl_options.specs.Options.{PlainOptions};
ghost use Rattle.dpl_report.specs.Plain.{plain_report};
ghost use Rattle.dpl_sign.specs.Colourings.{IsColouring};
ghost use Rattle.dpl_sign.specs.Packings.{IsPacking, bound_of};
ghost use Rattle.dpl_good.specs.Truths.{SaysTrue};
ghost use Rattle.dpl_core.specs.Reports.{HaveMasks, IsRefinedSplit, IsReportOfNet, IsRefinedOfNet};
ghost use Rattle.dpl_layer.specs.Refusals.{layer_reasons};

use crate::making::{Made, make_commands};
use crate::solving::true_report_is_of_the_layer;
use dpl_bound::{bound, more_cycles};
use dpl_cuts::types::Fragments;
use dpl_good::{broken_clashes, broken_cuts, masks};
use dpl_layer::{Layer, LayerError};
use dpl_lex::types::Commands;
use dpl_list::Items;
use dpl_options::Options;
use dpl_refine::refine;
use dpl_report::{Report, print};
use dpl_sign::{Net, cost};
use std::alloc::{AllocError as NoMemory, Global};

/// The text of a report of a layer, where the text of the layout is already cut into these commands. Where something is
/// set aside, its colours are refined, and its cycles bound at least as much as those of the optimum of what is kept.
pub fn refine_commands(
    alloc: Global,
    text: &[u8],
    commands: &Commands,
    options: &Options,
) -> Result<Vec<u8>, LayerError>
    requires cut { (length text.now ≤ MOST_LAYOUT_BYTES) × (commands.now ≡ commands_of text.now) }
    ensures split { IfOk result (λ v. IsRefinedSplit options.now text.now v.items) }
    ensures refused { (e : LayerError) → result ≡ Err e →
        (e ≡ LayerError.NoMemory) ⊎ FirstOf (layer_reasons options.now text.now) e }
    ensures exact { (e : LayerError) → FirstOf (layer_reasons options.now text.now) e →
        (result ≡ Err e) ⊎ (result ≡ Err LayerError.NoMemory) }
{
    let Made { layer, report } = make_commands(alloc, text, commands, options)?;
    let report = refined(alloc, options, &layer, report)?;
    let written = print(alloc, &report)?;
    Ok(written)
}

/// The report with other colours, and with what these break and cost. It says the truth where the report does.
fn recoloured(
    alloc: Global,
    report: Report,
    fragments: &Fragments,
    net: &Net,
    colours: Vec<bool>,
) -> Result<Report, NoMemory>
    requires colouring { IsColouring net.now.graph colours.items }
    requires one { length colours.items ≡ length fragments.now.rects }
    ensures colours { IfOk result (λ r. r.colours ≡ colours.items) }
    ensures params { IfOk result (λ r. r.params ≡ report.params) }
    ensures bound { IfOk result (λ r. r.bound ≡ report.bound) }
    ensures cycles { IfOk result (λ r. r.cycles ≡ report.cycles) }
    ensures truth { IfOk result (λ r. (options : PlainOptions) →
        SaysTrue options fragments.now net.now (plain_report report) →
        SaysTrue options fragments.now net.now (plain_report r)) }
{
    let edges = net.graph.edges.as_slice();
    let costs = cost(&net.graph, colours.as_slice());
    let cuts = broken_cuts(alloc, colours.as_slice(), edges, fragments.cuts.as_slice())?;
    let clashes = broken_clashes(alloc, colours.as_slice(), edges)?;
    let masks = masks(alloc, fragments, colours.as_slice())?;
    Ok(Report {
        params: report.params,
        counts: report.counts,
        cost: costs,
        bound: report.bound,
        colours: Items::new(colours),
        cuts: Items::new(cuts),
        clashes: Items::new(clashes),
        aside: report.aside,
        cycles: report.cycles,
        on_a: Items::new(masks.on_a),
        on_b: Items::new(masks.on_b),
    })
}

/// The report with cycles that bound more, or the same. It says the truth where the report does.
fn repacked(alloc: Global, report: Report, net: &Net) -> Result<Report, NoMemory>
    requires packing { IsPacking net.now.graph report.cycles }
    ensures colours { IfOk result (λ r. r.colours ≡ report.colours) }
    ensures params { IfOk result (λ r. r.params ≡ report.params) }
    ensures bound { IfOk result (λ r. bound_of report.cycles ≤ r.bound) }
    ensures truth { IfOk result (λ r. (options : PlainOptions) (fragments : PlainFragments) →
        SaysTrue options fragments net.now (plain_report report) →
        SaysTrue options fragments net.now (plain_report r)) }
{
    let Report {
        params,
        counts,
        cost,
        colours,
        cuts,
        clashes,
        aside,
        cycles,
        on_a,
        on_b,
        ..
    } = report;
    let cycles = more_cycles(alloc, &net.graph, colours.as_slice(), cycles)?;
    let bound = bound(cycles.as_slice());
    Ok(Report {
        params,
        counts,
        cost,
        bound,
        colours,
        cuts,
        clashes,
        aside,
        cycles,
        on_a,
        on_b,
    })
}

/// The report with refined colours and with cycles that bound at least as much. Where nothing is set aside, it stays as it
/// is.
fn refined(
    alloc: Global,
    options: &Options,
    layer: &Layer,
    report: Report,
) -> Result<Report, NoMemory>
    requires layer { IsSomeLayer options.now layer.now.fragments layer.now.net }
    requires report { IsReportOfNet options.now layer.now.fragments layer.now.net
        (plain_report report) }
    ensures report { IfOk result (λ r.
        IsRefinedOfNet options.now layer.now.fragments layer.now.net (plain_report r)) }
    ensures masks { IfOk result (λ r.
        HaveMasks options.now layer.now.fragments layer.now.net (plain_report r)) }
{
    if report.aside.as_slice().is_empty() {
        true_report_is_of_the_layer(options, layer, &report);
        return Ok(report);
    }
    let colours = refine(alloc, &layer.net.graph, report.colours.as_slice())?;
    let coloured = recoloured(alloc, report, &layer.fragments, &layer.net, colours)?;
    let found = repacked(alloc, coloured, &layer.net)?;
    true_report_is_of_the_layer(options, layer, &found);
    Ok(found)
}
