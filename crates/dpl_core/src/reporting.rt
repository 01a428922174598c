// What a report of a solution says.
ghost use Rattle.std.specs.Prelude.{◌≡◌, length, IfOk};
ghost use Rattle.dpl_report.specs.Plain.{plain_report};
ghost use Rattle.dpl_good.specs.Conditions.{params_of_options};
ghost use Rattle.dpl_good.specs.Truths.{SaysTrue};
ghost use Rattle.dpl_solve.specs.Solved.{IsSolution};
ghost use Rattle.dpl_core.specs.Reports.{IsTight, CostsLeast};

use dpl_cuts::types::Fragments;
use dpl_good::{broken_clashes, broken_cuts, counts_of, masks};
use dpl_list::Items;
use dpl_options::{Options, same_keep, same_name};
use dpl_report::{Params, Report};
use dpl_sign::Net;
use dpl_solve::Solution;
use std::alloc::{AllocError as NoMemory, Global};

/// The report of a solution.
pub fn report_of(
    alloc: Global,
    options: &Options,
    fragments: &Fragments,
    net: &Net,
    solution: Solution,
) -> Result<Report, NoMemory>
    requires solution { IsSolution net.now solution.colours.items solution.cost solution.aside
        solution.excess solution.cycles solution.bound }
    requires one { length solution.colours.items ≡ length fragments.now.rects }
    ensures truth { IfOk result (λ r. SaysTrue options.now fragments.now net.now (plain_report r)) }
    ensures tight { IfOk result (λ r. IsTight net.now (plain_report r)) }
    ensures least { IfOk result (λ r. CostsLeast net.now (plain_report r).head r.aside) }
    ensures colours { IfOk result (λ r. r.colours ≡ solution.colours.items) }
{
    let params = params_of(options);
    let counts = counts_of(net, solution.excess);
    let edges = net.graph.edges.as_slice();
    let colours = solution.colours.as_slice();
    let cuts = broken_cuts(alloc, colours, edges, fragments.cuts.as_slice())?;
    let clashes = broken_clashes(alloc, colours, edges)?;
    let masks = masks(alloc, fragments, colours)?;
    Ok(Report {
        params,
        counts,
        cost: solution.cost,
        bound: solution.bound,
        colours: Items::new(solution.colours),
        cuts: Items::new(cuts),
        clashes: Items::new(clashes),
        aside: solution.aside,
        cycles: solution.cycles,
        on_a: Items::new(masks.on_a),
        on_b: Items::new(masks.on_b),
    })
}

fn params_of(options: &Options) -> Params
    ensures { result ≡ params_of_options options.now }
{
    let corner = Some(options.weights().corner());
    Params {
        layer: same_name(options.layer()),
        space: options.space(),
        overlap: options.overlap(),
        stitch: options.weights().stitch(),
        conflict: options.weights().conflict(),
        corner,
        keep: same_keep(options.keep()),
    }
}
