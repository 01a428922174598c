// The report of a layer whose masks cover about the same area.
ghost use Rattle.std.specs.Prelude.{◌≡◌, ◌⊎◌, ◌≤◌, length, IfOk, Err};
ghost use Rattle.dpl_limits.specs.declared.TheConstants.{MOST_LAYOUT_BYTES};
ghost use Rattle.dpl_lex.specs.Cutting.{commands_of};
ghost use Rattle.dpl_layer.specs.Layers.{IsSomeLayer};
ghost use Rattle.dpl_layer.specs.Reasons.{FirstOf};
ghost use Rattle.dpl_report.specs.Plain.{plain_report};
ghost use Rattle.dpl_balance.specs.Balance.{AreBalanced};
ghost use Rattle.dpl_core.specs.Reports.{HaveMasks, IsBalancedSplit, IsReportOfNet};
ghost use Rattle.dpl_layer.specs.Refusals.{layer_reasons};

use crate::making::{Made, make_commands};
use crate::solving::report_is_of_the_layer;
use dpl_balance::balance;
use dpl_layer::{Layer, LayerError};
use dpl_lex::types::Commands;
use dpl_options::Options;
use dpl_report::{Report, print};
use std::alloc::{AllocError as NoMemory, Global};

/// The text of a report of a layer, where the text of the layout is already cut into these commands. Its masks cover
/// about the same area.
pub fn balance_commands(
    alloc: Global,
    text: &[u8],
    commands: &Commands,
    options: &Options,
) -> Result<Vec<u8>, LayerError>
    requires cut { (length text.now ≤ MOST_LAYOUT_BYTES) × (commands.now ≡ commands_of text.now) }
    ensures split { IfOk result (λ v. IsBalancedSplit options.now text.now v.items) }
    ensures refused { (e : LayerError) → result ≡ Err e →
        (e ≡ LayerError.NoMemory) ⊎ FirstOf (layer_reasons options.now text.now) e }
    ensures exact { (e : LayerError) → FirstOf (layer_reasons options.now text.now) e →
        (result ≡ Err e) ⊎ (result ≡ Err LayerError.NoMemory) }
{
    let Made { layer, report } = make_commands(alloc, text, commands, options)?;
    let report = balanced(alloc, options, &layer, report)?;
    let written = print(alloc, &report)?;
    Ok(written)
}

/// The report with whole components turned over. It stays the report of its layer.
fn balanced(
    alloc: Global,
    options: &Options,
    layer: &Layer,
    report: Report,
) -> Result<Report, NoMemory>
    requires layer { IsSomeLayer options.now layer.now.fragments layer.now.net }
    requires report { IsReportOfNet options.now layer.now.fragments layer.now.net
        (plain_report report) }
    ensures report { IfOk result (λ r.
        IsReportOfNet options.now layer.now.fragments layer.now.net (plain_report r)) }
    ensures masks { IfOk result (λ r.
        HaveMasks options.now layer.now.fragments layer.now.net (plain_report r)) }
    ensures even { IfOk result (λ r. AreBalanced layer.now.fragments layer.now.net r.colours) }
{
    let report = balance(alloc, report, &layer.fragments, &layer.net)?;
    report_is_of_the_layer(options, layer, &report);
    Ok(report)
}
