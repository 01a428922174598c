// The broken stitches with their zones.
ghost use Rattle.std.specs.Prelude.{◌≡◌, ◌<◌, ◌^◌, [], ◌++◌, map, length, IfOk, OnOk};
ghost use Rattle.dpl_report.specs.Plain.{plain_zone};
ghost use Rattle.dpl_good.specs.Conditions as conditions;

use crate::masking::colour_at;
use dpl_cuts::types::Cut;
use dpl_report::{Broken, Zone};
use dpl_sign::{Edge, broken};
use std::alloc::{AllocError as NoMemory, Global};

fn cuts_after<'a>(edge: &Edge, cuts: &'a [Cut]) -> &'a [Cut]
    ensures { result.now ≡ conditions.cuts_after edge.now cuts.now }
{
    match cuts.split_first() {
        Some((_, others)) if edge.kind.is_stitch() => others,
        _ => cuts,
    }
}

fn is_broken_stitch(colours: &[bool], edge: &Edge) -> bool
    ensures { result ≡ conditions.is_broken_stitch colours.now edge.now }
{
    edge.kind.is_stitch() && broken(edge, colour_at(colours, edge.a), colour_at(colours, edge.b))
}

fn push_here(
    found: &mut Vec<Zone>,
    colours: &[bool],
    e: u32,
    edge: &Edge,
    cuts: &[Cut],
) -> Result<(), NoMemory>
    ensures { OnOk result (map plain_zone found.new.items ≡ map plain_zone found.old.items
        ++ conditions.zone_here colours.now e edge.now cuts.now []) }
{
    if let Some(cut) = cuts.first()
        && is_broken_stitch(colours, edge)
    {
        let at = Broken {
            edge: e,
            a: edge.a,
            b: edge.b,
        };
        found.push(Zone { at, rect: cut.zone })?;
    }
    Ok(())
}

/// The broken stitches with their ends and zones.
pub fn broken_cuts(
    alloc: Global,
    colours: &[bool],
    edges: &[Edge],
    cuts: &[Cut],
) -> Result<Vec<Zone>, NoMemory>
    requires { length edges.now < 2 ^ 30 }
    ensures { IfOk result (λ v. map plain_zone v.items
        ≡ conditions.cuts_from colours.now 0 edges.now cuts.now) }
{
    let mut found = Vec::new(alloc);
    let mut left = cuts;
    let mut e = 0;
    for edge in edges {
        push_here(&mut found, colours, e, edge, left)?;
        left = cuts_after(edge, left);
        e += 1;
    }
    Ok(found)
}
