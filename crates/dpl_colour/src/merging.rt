//! Names of nodes, of which the two of an edge become one.

ghost use Rattle.std.specs.Prelude.{◌≡◌, ◌≢◌, ◌<◌, ◌+◌, length, slice_index};
ghost use Rattle.dpl_sign.specs.Kinds.{is_clash};
ghost use Rattle.dpl_map.specs.Views.{view_of};
ghost use Rattle.dpl_map.specs.Sides.{differ};
ghost use Rattle.dpl_colour.specs.Lists.{AreLinked, AreListed};
ghost use Rattle.dpl_colour.specs.Merges.{painted, IsMerged, IsColoured, IsWanted};

use crate::lists::{Lists, append, shorter_first};
use dpl_map::Map;
use dpl_sign::{Kind, Signed};

/// One name becomes another, and the colours of its nodes are exchanged where `flip` asks it.
#[derive(Clone, Copy)]
struct Change {
    from: u32,
    to: u32,
    flip: bool,
}

/// Gives the nodes of a name, each of which leads to the next, another.
fn merge(names: &mut [u32], colours: &mut [bool], next: &[u32], change: Change)
    requires sizes { length names.old ≡ length colours.old }
    requires apart { change.from ≢ change.to }
    requires inside { change.from < length names.old }
    requires first { slice_index names.old change.from ≡ change.from }
    requires linked { AreLinked names.old next.now }
    ensures { IsMerged change (length names.old) (painted names.old colours.old)
        (painted names.new colours.new) }
{
    let Change { from, to, flip } = change;
    let mut node = from as usize;
    'nodes: while names[node] == from {
        names[node] = to;
        colours[node] = colours[node] != flip;
        node = next[node] as usize;
    }
}

/// Whether the colours on one side of an edge have to be exchanged.
fn flips(kind: Kind, joined: bool, a: bool, b: bool) -> bool
    ensures { result ≡ differ (differ a b) (differ joined (is_clash kind)) }
{
    (a != b) != (joined != kind.is_clash())
}

/// A graph, its map, and which of its edges are to be broken.
#[derive(Clone, Copy)]
pub struct Wanted<'a> {
    pub graph: &'a Signed,
    pub map: &'a Map<'a>,
    pub joined: &'a [bool],
}

/// Joins the names of the ends of an edge. The fewer nodes get the name of the others.
pub fn settle(
    wanted: &Wanted<'_>,
    i: u32,
    names: &mut [u32],
    lists: &mut Lists,
    colours: &mut [bool],
)
    requires wanted { IsWanted wanted.now }
    requires inside { i < length wanted.now.graph.now.edges }
    requires coloured { IsColoured wanted.now.graph.now (view_of wanted.now.map.now)
        wanted.now.joined.now i names.old colours.old }
    requires listed { AreListed names.old lists.old.next.items lists.old.last.items
        lists.old.lengths.items }
    ensures coloured { IsColoured wanted.now.graph.now (view_of wanted.now.map.now)
        wanted.now.joined.now (i + 1) names.new colours.new }
    ensures listed { AreListed names.new lists.new.next.items lists.new.last.items
        lists.new.lengths.items }
{
    if !wanted.map.kept(i) {
        return;
    }
    let edge = wanted.graph.edges.as_slice()[i as usize];
    let a = names[edge.a as usize];
    let b = names[edge.b as usize];
    if a == b {
        return;
    }
    let flip = flips(
        edge.kind,
        wanted.joined[i as usize],
        colours[edge.a as usize],
        colours[edge.b as usize],
    );
    let (from, to) = shorter_first(&lists.lengths, a, b);
    merge(names, colours, &lists.next, Change { from, to, flip });
    append(lists, from, to);
}
