// A report whose masks cover about the same area.
ghost use Rattle.std.specs.Prelude.{◌≡◌, ◌<◌, ◌≤◌, ◌^◌, ℕ, false, true, length, slice_index_or, All, IfOk, map};
ghost use Rattle.dpl_sign.specs.Colourings.{colour_of};
ghost use Rattle.dpl_options.specs.Options.{PlainOptions};
ghost use Rattle.dpl_report.specs.Plain.{plain_report};
ghost use Rattle.dpl_good.specs.MaskRects.{mask_of};
ghost use Rattle.dpl_good.specs.Truths.{SaysTrue};
ghost use Rattle.dpl_parts.specs.Components.{AreComponents};
ghost use Rattle.dpl_balance.specs.Balance.{AreBalanced, AreTurned, BreakTheSame, turn};
ghost use Rattle.dpl_balance.specs.Rest.{IsRestOf};

use crate::adding::sides;
use crate::turning::turned;
use dpl_cuts::types::Fragments;
use dpl_good::masks;
use dpl_list::Items;
use dpl_parts::counted_components;
use dpl_report::Report;
use dpl_sign::Net;
use std::alloc::{AllocError as NoMemory, Global};

fn turn_where(turned: bool, colour: bool) -> bool
    ensures { result ≡ turn turned colour }
{
    if turned { !colour } else { colour }
}

/// The colours after some components were turned over.
fn recoloured(
    alloc: Global,
    colours: &[bool],
    number: &[u32],
    turned: &[bool],
) -> Result<Vec<bool>, NoMemory>
    requires long { length number.now ≡ length colours.now }
    requires within { All (λ c. c < length turned.now) number.now }
    ensures long { IfOk result (λ v. length v.items ≡ length colours.now) }
    ensures each { IfOk result (λ v. (k : ℕ) → k < length colours.now → slice_index_or v.items k false
        ≡ turn (slice_index_or turned.now (slice_index_or number.now k 0) false)
        (slice_index_or colours.now k false)) }
{
    let mut found = Vec::new(alloc);
    for k in 0..colours.len() {
        found.push(turn_where(turned[number[k] as usize], colours[k]))?;
    }
    Ok(found)
}

/// Colours that are all the old ones or all the opposite ones in each component, and whose masks cover about the
/// same area.
fn balanced(
    alloc: Global,
    colours: &[bool],
    fragments: &Fragments,
    net: &Net,
) -> Result<Vec<bool>, NoMemory>
    requires one { length colours.now ≡ length fragments.now.rects }
    requires nodes { net.now.graph.nodes ≡ length fragments.now.rects }
    ensures turned { IfOk result (λ v. AreTurned net.now colours.now v.items) }
    ensures even { IfOk result (λ v. AreBalanced fragments.now net.now v.items) }
{
    let rects = fragments.rects.as_slice();
    let (number, count) = counted_components(alloc, net)?;
    let on_a = sides(alloc, rects, colours, number.as_slice(), count, false)?;
    let on_b = sides(alloc, rects, colours, number.as_slice(), count, true)?;
    let turned = turned(alloc, on_a.as_slice(), on_b.as_slice())?;
    let found = recoloured(alloc, colours, number.as_slice(), turned.as_slice())?;
    Ok(found)
}

/// The report with whole components turned over, so that its two masks differ in area by no more than they differ
/// within one component. What is broken, what that costs and what bounds it stay as they are, and so a report that
/// says the truth still says it.
pub fn balance(
    alloc: Global,
    report: Report,
    fragments: &Fragments,
    net: &Net,
) -> Result<Report, NoMemory>
    requires one { length report.colours ≡ length fragments.now.rects }
    requires nodes { net.now.graph.nodes ≡ length fragments.now.rects }
    ensures turned { IfOk result (λ r. AreTurned net.now report.colours r.colours) }
    ensures on_a { IfOk result (λ r. r.on_a ≡ mask_of false fragments.now r.colours) }
    ensures on_b { IfOk result (λ r. r.on_b ≡ mask_of true fragments.now r.colours) }
    ensures rest { IfOk result (IsRestOf report) }
    ensures broken { IfOk result (λ r. BreakTheSame net.now report.colours r.colours) }
    ensures truth { IfOk result (λ r. (options : PlainOptions) →
        SaysTrue options fragments.now net.now (plain_report report) →
        SaysTrue options fragments.now net.now (plain_report r)) }
    ensures even { IfOk result (λ r. AreBalanced fragments.now net.now r.colours) }
{
    let colours = balanced(alloc, report.colours.as_slice(), fragments, net)?;
    let masks = masks(alloc, fragments, colours.as_slice())?;
    Ok(Report {
        params: report.params,
        counts: report.counts,
        cost: report.cost,
        bound: report.bound,
        colours: Items::new(colours),
        cuts: report.cuts,
        clashes: report.clashes,
        aside: report.aside,
        cycles: report.cycles,
        on_a: Items::new(masks.on_a),
        on_b: Items::new(masks.on_b),
    })
}
