//! Edges that are joined along the chains of joins.

ghost use Rattle.std.specs.Prelude.{◌≡◌, ◌<◌, All, length, map, OnOk};
ghost use Rattle.dpl_dual.specs.Duals.{way_at};
ghost use Rattle.dpl_flood.specs.Arenas.{AreNodes, IsJoin, join_chain};
ghost use Rattle.dpl_flood.specs.Flips.{AreFlipped};

use crate::arena::Arena;
use crate::nodes::Join;
use dpl_dual::Cross;
use std::alloc::{AllocError, Global};

/// Joins the edges of these ways that are not joined, and parts those that are, one after another.
fn flip(ways: &[Cross], chain: &[u32], joined: &mut [bool])
    requires numbers { All (λ w. w < length ways.now) chain.now }
    requires places { All (λ x. x.edge < length joined.old) ways.now }
    ensures { AreFlipped (map (way_at ways.now) chain.now) joined.old joined.new }
{
    for i in 0..chain.len() {
        let place = ways[chain[i] as usize].edge as usize;
        joined[place] = !joined[place];
    }
}

/// Joins and parts the edges on the chain of a join. It costs its ways.
pub fn flip_join(
    alloc: Global,
    ways: &[Cross],
    arena: &Arena,
    join: Join,
    joined: &mut [bool],
) -> Result<(), AllocError>
    requires nodes { AreNodes ways.now arena.now }
    requires join { IsJoin ways.now arena.now join }
    requires places { All (λ x. x.edge < length joined.old) ways.now }
    ensures { OnOk result (AreFlipped (join_chain ways.now arena.now join) joined.old joined.new) }
{
    let chain = arena.ways_of(alloc, ways, join)?;
    flip(ways, &chain, joined);
    Ok(())
}
