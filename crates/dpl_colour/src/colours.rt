//! A colouring from a set of edges.

ghost use Rattle.std.specs.Prelude.{◌≡◌, length, IfOk};
ghost use Rattle.dpl_sign.specs.Colourings.{IsColouring};
ghost use Rattle.dpl_map.specs.Views.{view_of};
ghost use Rattle.dpl_map.specs.Built.{IsMapOf};
ghost use Rattle.dpl_colour.specs.Meets.{MeetsFaces, BreaksJoined};

use crate::lists::{ascending, singles};
use crate::merging::{Wanted, settle};
use dpl_map::Map;
use dpl_sign::Signed;
use std::alloc::{AllocError, Global};

/// A colouring that breaks, among the kept edges, just the joined ones. The set of joined edges has
/// a place for each edge, and meets the faces of the map.
///
/// It costs the edges, and the nodes times a logarithm.
pub fn colour(
    alloc: Global,
    map: &Map<'_>,
    graph: &Signed,
    joined: &[bool],
) -> Result<Vec<bool>, AllocError>
    requires map { IsMapOf graph.now map.now }
    requires places { length joined.now ≡ length graph.now.edges }
    requires meets { MeetsFaces graph.now (view_of map.now) joined.now }
    ensures colouring { IfOk result (λ c. IsColouring graph.now c.items) }
    ensures broken { IfOk result (λ c.
        BreaksJoined graph.now (view_of map.now) joined.now c.items) }
{
    let wanted = Wanted { graph, map, joined };
    let mut colours = vec![in alloc; false; graph.nodes as usize]?;
    let mut names = ascending(alloc, graph.nodes)?;
    let mut lists = singles(alloc, graph.nodes)?;
    for i in 0..graph.edges.as_slice().len() {
        settle(&wanted, i as u32, &mut names, &mut lists, &mut colours);
    }
    Ok(colours)
}
