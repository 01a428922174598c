// The broken clashes of a colouring.
ghost use Rattle.std.specs.Prelude.{◌≡◌, ◌<◌, ◌^◌, [], ◌++◌, length, IfOk, OnOk};
ghost use Rattle.dpl_good.specs.Conditions as conditions;

use crate::masking::colour_at;
use dpl_report::Broken;
use dpl_sign::{Edge, broken};
use std::alloc::{AllocError as NoMemory, Global};

fn is_broken_clash(colours: &[bool], edge: &Edge) -> bool
    ensures { result ≡ conditions.is_broken_clash colours.now edge.now }
{
    edge.kind.is_clash() && broken(edge, colour_at(colours, edge.a), colour_at(colours, edge.b))
}

fn push_where(found: &mut Vec<Broken>, holds: bool, broken: Broken) -> Result<(), NoMemory>
    ensures { OnOk result (found.new.items ≡ found.old.items
        ++ conditions.where_broken holds broken []) }
{
    if holds {
        found.push(broken)?;
    }
    Ok(())
}

/// The broken clashes with their ends.
#[tactic(auto, using(crate::proofs::ClashLemmas::one_clash))]
pub fn broken_clashes(
    alloc: Global,
    colours: &[bool],
    edges: &[Edge],
) -> Result<Vec<Broken>, NoMemory>
    requires { length edges.now < 2 ^ 30 }
    ensures { IfOk result (λ v. v.items ≡ conditions.clashes_from colours.now 0 edges.now) }
{
    let mut found = Vec::new(alloc);
    let mut e = 0;
    for edge in edges {
        let (a, b) = (edge.a, edge.b);
        push_where(
            &mut found,
            is_broken_clash(colours, edge),
            Broken { edge: e, a, b },
        )?;
        e += 1;
    }
    Ok(found)
}
