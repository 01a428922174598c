// What the lists of a report have to be, and the conditions on bonds, walks and boxes.
ghost use Rattle.std.specs.Prelude.{◌≡◌, ◌<◌, ◌≤◌, ◌+◌, ◌*◌, ◌^◌, [], ◌∷◌, ◌++◌, map, length, true, false, IfOk, OnOk, MatchOption, All};
ghost use Rattle.dpl_cell.specs.Places.{corners_of};
ghost use Rattle.dpl_rules.specs.Readers.{Reads};
ghost use Rattle.dpl_sign.specs.Colourings.{colour_of, breaks};
ghost use Rattle.dpl_sign.specs.Walks.{across, leaves, edge_at, IsOddWalk};
ghost use Rattle.dpl_parse.specs.Read.{cycle_of};
ghost use Rattle.dpl_good.specs.Misses as misses;
ghost use Rattle.dpl_good.specs.Conditions as conditions;

use crate::compare::{corners_miss, number_miss};
use dpl_cell::Rect;
use dpl_good::types::Masks;
use dpl_good::{Miss, colour_at};
use dpl_parse::{Boxes, Cycles, Edges, WrittenCycle};
use dpl_sign::{Edge, Kind, Signed};
use std::alloc::{AllocError as NoMemory, Global};

fn bond_miss(colours: &[bool], e: u64, edge: &Edge) -> Option<Miss>
    ensures { result ≡ conditions.bond_miss colours.now e edge.now }
{
    let a = colour_at(colours, edge.a);
    let b = colour_at(colours, edge.b);
    match edge.kind {
        Kind::Bond if a != b => Some(Miss {
            place: e,
            found: i64::from(b),
            wanted: i64::from(a),
        }),
        _ => None,
    }
}

/// The ends of each bond have the same mask.
pub fn bonds_miss(colours: &[bool], edges: &[Edge]) -> Option<Miss>
    requires { length edges.now < 2 ^ 30 }
    ensures { result ≡ conditions.bonds_miss colours.now 0 edges.now }
{
    let mut e = 0;
    for edge in edges {
        if let Some(miss) = bond_miss(colours, e, edge) {
            return Some(miss);
        }
        e += 1;
    }
    None
}

/// Boxes against rectangles, from a place on.
pub fn boxes_miss(
    alloc: Global,
    place: u64,
    found: Boxes<'_>,
    wanted: &[Rect],
) -> Result<Option<Miss>, NoMemory>
    requires { place + length found < 2 ^ 63 }
    ensures { IfOk result (λ v.
        v ≡ conditions.boxes_miss place found.entry (map corners_of wanted.now)) }
{
    let mut left = wanted;
    let mut boxes = found;
    let mut at = place;
    'boxes: while let Some(x) = boxes.next_box(alloc)? {
        let Some((y, others)) = left.split_first() else {
            return Ok(None);
        };
        if let Some(miss) = corners_miss(at, &x, y) {
            return Ok(Some(miss));
        }
        left = others;
        at += 1;
    }
    Ok(None)
}

/// The place, node and parity that a walk has reached.
#[derive(Clone, Copy, Debug)]
struct Reached {
    place: u64,
    node: u32,
    odd: bool,
}

fn end_miss(cycle: u64, start: u32, at: Reached) -> Option<Miss>
    requires { at.place < 2 ^ 32 }
    ensures { result ≡ conditions.end_miss cycle start at.place at.node at.odd }
{
    if at.place == 1 || at.node != start {
        return Some(Miss {
            place: cycle,
            found: at.place as i64,
            wanted: 0,
        });
    }
    if at.odd {
        None
    } else {
        Some(Miss {
            place: cycle,
            found: 0,
            wanted: 1,
        })
    }
}

fn along(edge: &Edge, at: Reached) -> Option<Reached>
    requires { at.place < 2 ^ 32 }
    ensures { MatchOption result (conditions.meets edge.now at.node ≡ false) (λ r.
        (conditions.meets edge.now at.node ≡ true) × (r.place ≡ at.place + 1) ×
        (r.node ≡ across edge.now at.node) ×
        (r.odd ≡ conditions.parity_after edge.now.kind at.odd)) }
{
    let node = if edge.a == at.node {
        edge.b
    } else if edge.b == at.node {
        edge.a
    } else {
        return None;
    };
    Some(Reached {
        place: at.place + 1,
        node,
        odd: edge.kind.is_clash() != at.odd,
    })
}

fn passed(graph: &Signed, e: u32, at: Reached) -> Option<Reached>
    requires { at.place < 2 ^ 32 }
    ensures { MatchOption result (leaves graph.now e at.node ≡ false) (λ r.
        (leaves graph.now e at.node ≡ true) × (r.place ≡ at.place + 1) ×
        (r.node ≡ across (edge_at graph.now e) at.node) ×
        (r.odd ≡ conditions.parity_after (edge_at graph.now e).kind at.odd)) }
{
    let edges = graph.edges.as_slice();
    let e = e as usize;
    if e < edges.len() {
        along(&edges[e], at)
    } else {
        None
    }
}

/// A cycle line is an odd walk from its start.
pub fn walk_miss(graph: &Signed, cycle: u64, walk: WrittenCycle<'_>) -> Option<Miss>
    requires { length walk.edges < 2 ^ 31 }
    ensures miss { result ≡ conditions.walk_miss graph.now cycle walk.entry.start walk.entry.edges 1
        walk.entry.start false }
    ensures odd { (result ≡ None → IsOddWalk graph.now (cycle_of walk.entry).walk) ×
        (IsOddWalk graph.now (cycle_of walk.entry).walk → result ≡ None) }
{
    first_walk_miss(graph, cycle, walk.start, walk.edges)
}

fn first_walk_miss(graph: &Signed, cycle: u64, start: u32, edges: Edges<'_>) -> Option<Miss>
    requires { length edges < 2 ^ 31 }
    ensures { result ≡ conditions.walk_miss graph.now cycle start edges.entry 1 start false }
{
    let mut left = edges;
    let mut at = Reached {
        place: 1,
        node: start,
        odd: false,
    };
    'edges: while let Some(e) = left.next_edge() {
        let Some(next) = passed(graph, e, at) else {
            return Some(Miss {
                place: cycle,
                found: at.place as i64,
                wanted: 0,
            });
        };
        at = next;
    }
    end_miss(cycle, start, at)
}

/// Each cycle line is an odd walk from its start.
pub fn walks_miss(graph: &Signed, cycles: Cycles<'_>) -> Option<Miss>
    requires few { length cycles < 2 ^ 31 }
    requires short { All (λ c. length c.walk.edges < 2 ^ 31) cycles }
    ensures { result ≡ conditions.walks_miss graph.now 0 cycles.entry }
{
    let mut left = cycles;
    let mut number = 0;
    'cycles: while let Some(cycle) = left.next_cycle() {
        if let Some(miss) = walk_miss(graph, number, cycle) {
            return Some(miss);
        }
        number += 1;
    }
    None
}

/// The counts of the boxes, A first, and then the boxes of both masks in order.
pub fn drawing_miss(
    alloc: Global,
    on_a: &Boxes<'_>,
    on_b: &Boxes<'_>,
    wanted: &Masks,
) -> Result<Option<Miss>, NoMemory>
    requires { length on_a.now + length on_b.now < 2 ^ 32 }
    ensures { IfOk result (λ v. v ≡ conditions.drawing_miss on_a.now on_b.now
        (map corners_of wanted.now.on_a.items) (map corners_of wanted.now.on_b.items)) }
{
    let counts = number_miss(4_294_967_296, on_a.len() as u64, wanted.on_a.len() as u64).or(
        number_miss(4_294_967_297, on_b.len() as u64, wanted.on_b.len() as u64),
    );
    if let Some(miss) = counts {
        return Ok(Some(miss));
    }
    if let Some(miss) = boxes_miss(alloc, 0, on_a.again(), &wanted.on_a)? {
        return Ok(Some(miss));
    }
    let miss = boxes_miss(alloc, on_a.len() as u64, on_b.again(), &wanted.on_b)?;
    Ok(miss)
}
