// A report text against the text of a layout.
ghost use Rattle.std.specs.Prelude.{◌≡◌, ◌⊎◌, ◌≤◌, ℕ, length, IfOk, IfErr, Ok, Err};
ghost use Rattle.dpl_limits.specs.declared.TheConstants.{MOST_LAYOUT_BYTES, MOST_REPORT_BYTES};
ghost use Rattle.dpl_lex.specs.Cutting.{commands_of};
ghost use Rattle.dpl_layer.specs.Reasons.{FirstOf, RefusesOnly, RefusesWhere};
ghost use Rattle.dpl_layer.specs.Refusals.{layer_reasons};
ghost use Rattle.dpl_check.specs.Checked.{IsAcceptedOf, IsVerdictOf};

use crate::judging::judge;
use crate::verdicts::Verdict;
use dpl_layer::{LayerError, layer_of_commands};
use dpl_lex::commands;
use dpl_lex::types::Commands;
use dpl_options::Options;
use std::alloc::Global;

/// Whether a report is good for a layer of a layout, and otherwise the first condition that fails. Nothing is believed
/// but the two texts and the options.
pub fn check(
    alloc: Global,
    text: &[u8],
    options: &Options,
    report: &[u8],
) -> Result<Verdict, LayerError>
    requires text { length text.now ≤ MOST_LAYOUT_BYTES }
    requires report { length report.now ≤ MOST_REPORT_BYTES }
    ensures verdict { IfOk result (λ v. IsVerdictOf options.now text.now report.now v) }
    ensures refused { RefusesOnly (FirstOf (layer_reasons options.now text.now)) result }
    ensures exact { RefusesWhere (FirstOf (layer_reasons options.now text.now)) result }
    // A good report is accepted, unless memory runs out, and no other is.
    ensures once { (v : Verdict) → IsVerdictOf options.now text.now report.now v →
        (result ≡ Ok v) ⊎ (result ≡ Err LayerError.NoMemory) }
    // The masks of an accepted report are those of the layer, and cost what it says; every colouring costs at least half its bound.
    ensures accepted { (cost bound : ℕ) → result ≡ Ok (Verdict.Yes cost bound) →
        IsAcceptedOf options.now text.now report.now cost bound }
{
    let Ok(commands) = commands(alloc, text) else {
        return Err(LayerError::NoMemory);
    };
    check_commands(alloc, text, &commands, options, report)
}

/// The same, where the text is already cut into these commands.
pub fn check_commands(
    alloc: Global,
    text: &[u8],
    commands: &Commands,
    options: &Options,
    report: &[u8],
) -> Result<Verdict, LayerError>
    requires text { length text.now ≤ MOST_LAYOUT_BYTES }
    requires commands { commands.now ≡ commands_of text.now }
    requires report { length report.now ≤ MOST_REPORT_BYTES }
    ensures verdict { IfOk result (λ v. IsVerdictOf options.now text.now report.now v) }
    ensures refused { RefusesOnly (FirstOf (layer_reasons options.now text.now)) result }
    ensures exact { RefusesWhere (FirstOf (layer_reasons options.now text.now)) result }
    // A good report is accepted, unless memory runs out, and no other is.
    ensures once { (v : Verdict) → IsVerdictOf options.now text.now report.now v →
        (result ≡ Ok v) ⊎ (result ≡ Err LayerError.NoMemory) }
    // The masks of an accepted report are those of the layer, and cost what it says; every colouring costs at least half its bound.
    ensures accepted { (cost bound : ℕ) → result ≡ Ok (Verdict.Yes cost bound) →
        IsAcceptedOf options.now text.now report.now cost bound }
{
    options.in_range();
    check_parts(alloc, text, commands, options, report)
}

/// The same; of refusals it is said that one comes where it applies.
fn check_parts(
    alloc: Global,
    text: &[u8],
    commands: &Commands,
    options: &Options,
    report: &[u8],
) -> Result<Verdict, LayerError>
    requires text { length text.now ≤ MOST_LAYOUT_BYTES }
    requires commands { commands.now ≡ commands_of text.now }
    requires report { length report.now ≤ MOST_REPORT_BYTES }
    ensures verdict { IfOk result (λ v. IsVerdictOf options.now text.now report.now v) }
    ensures refused { IfErr result (λ e. (e ≡ LayerError.NoMemory) ⊎
        FirstOf (layer_reasons options.now text.now) e) }
{
    options.in_range();
    let layer = layer_of_commands(alloc, text, commands, options)?;
    let verdict = judge(alloc, options, &layer.fragments, &layer.net, report)?;
    Ok(verdict)
}
