ghost use Rattle.std.specs.Prelude.{◌≡◌, IfSome};

use dpl_balance::{areas, balance, components};
use dpl_cell::Rect;
use dpl_cuts::types::{Cut, Fragments};
use dpl_lex::Name;
use dpl_list::Items;
use dpl_report::{Counts, Params, Report};
use dpl_sign::{Edge, Net, Port, Signed};
use std::alloc::Global;

/// The left, lower, right and upper end of a rectangle.
type Ends = (i64, i64, i64, i64);

fn rects_of(alloc: Global, ends: &[Ends]) -> Option<Vec<Rect>> {
    let mut rects = Vec::new(alloc);
    for (x1, y1, x2, y2) in ends {
        rects.push(Rect::new(*x1, *y1, *x2, *y2)?).ok()?;
    }
    Some(rects)
}

/// Fragments with these rectangles and cuts, each a tile and a shape of its own.
fn fragments(alloc: Global, rects: Vec<Rect>, cuts: Vec<Cut>) -> Option<Fragments> {
    let mut numbers = Vec::new(alloc);
    let mut shapes = Vec::new(alloc);
    let mut number = 0u32;
    for _ in rects.as_slice() {
        numbers.push(number).ok()?;
        shapes.push(number).ok()?;
        number = number.wrapping_add(1);
    }
    Some(Fragments {
        rects: Items::new(rects),
        tile: Items::new(numbers),
        shape: Items::new(shapes),
        cuts: Items::new(cuts),
    })
}

/// The net of these edges, each node a piece of its own.
fn net(alloc: Global, nodes: u32, links: &[Edge]) -> Option<Net> {
    let mut edges = Vec::new(alloc);
    let mut ports = Vec::new(alloc);
    for edge in links {
        edges.push(*edge).ok()?;
        ports.push((Port::on_side(3, 0), Port::on_side(7, 0))).ok()?;
    }
    let mut pieces = Vec::new(alloc);
    for node in 0..nodes {
        pieces.push(node).ok()?;
    }
    let graph = Signed::new(nodes, edges)?;
    Net::new(graph, ports, pieces, nodes)
}

/// A report with these colours, that says nothing else.
fn report(alloc: Global, colours: &[bool]) -> Option<Report>
    ensures { IfSome result (λ r. r.colours ≡ colours.now) }
{
    let layer = Name::new(b"M")?;
    Some(Report {
        params: Params {
            layer,
            space: 100,
            overlap: 20,
            stitch: 1,
            conflict: 10,
            corner: Some(10),
            keep: None,
        },
        counts: Counts {
            pieces: 0,
            fragments: 0,
            bonds: 0,
            stitches: 0,
            clashes: 0,
            excess: 0,
        },
        cost: 7,
        bound: 9,
        colours: Items::new(Vec::from_slice(alloc, colours).ok()?),
        cuts: Items::new(Vec::new(alloc)),
        clashes: Items::new(Vec::new(alloc)),
        aside: Items::new(Vec::new(alloc)),
        cycles: Items::new(Vec::new(alloc)),
        on_a: Items::new(Vec::new(alloc)),
        on_b: Items::new(Vec::new(alloc)),
    })
}

/// A report with these colours after balancing fragments with these rectangles, which these edges join.
fn balanced(alloc: Global, rects: Vec<Rect>, links: &[Edge], colours: &[bool]) -> Option<Report> {
    if rects.len() > 1_000 {
        return None;
    }
    let net = net(alloc, rects.len() as u32, links)?;
    let fragments = fragments(alloc, rects, Vec::new(alloc))?;
    if fragments.rects.as_slice().len() != colours.len() {
        return None;
    }
    if net.graph.nodes as usize != colours.len() {
        return None;
    }
    balance(alloc, report(alloc, colours)?, &fragments, &net).ok()
}

fn square(x: i64) -> Option<Rect> {
    if x < 0 || x > 10_000 {
        return None;
    }
    Rect::new(x, 0, x + 200, 200)
}

/// How many of the colours are those of mask B after balancing lone squares.
fn lone_squares(alloc: Global, count: u32) -> Option<usize> {
    let mut rects = Vec::new(alloc);
    let mut colours = Vec::new(alloc);
    for v in 0..count {
        rects.push(square(i64::from(v).wrapping_mul(800))?).ok()?;
        colours.push(false).ok()?;
    }
    let found = balanced(alloc, rects, &[], colours.as_slice())?;
    Some(found.on_b.as_slice().len())
}

#[test]
fn lone_squares_are_shared_out(rt: HostRuntime) {
    assert_eq!(rt; lone_squares(rt.alloc(), 4), Some(2));
    assert_eq!(rt; lone_squares(rt.alloc(), 0), Some(0));
    let three = lone_squares(rt.alloc(), 3);
    assert!(rt; three == Some(1) || three == Some(2));
}

/// The component of each node of the net of these edges.
fn are_components(alloc: Global, nodes: u32, links: &[Edge], wanted: &[u32]) -> Option<bool> {
    let net = net(alloc, nodes, links)?;
    let number = components(alloc, &net).ok()?;
    Some(number.as_slice() == wanted)
}

#[test]
fn components_are_numbered_by_their_least_fragments(rt: HostRuntime) {
    let links = [Edge::clash(1, 4, 10), Edge::clash(2, 4, 10)];
    assert_eq!(rt;
        are_components(rt.alloc(), 5, &links, &[0, 1, 1, 2, 1]),
        Some(true)
    );
}

/// How many cells are on masks A and B of parts of a wire, with a cut behind each but the last.
fn cells(alloc: Global, parts: &[Ends], zones: &[Ends], colours: &[bool]) -> Option<(u128, u128)> {
    let mut cuts = Vec::new(alloc);
    let mut a = 0u32;
    for zone in rects_of(alloc, zones)?.as_slice() {
        let b = a.wrapping_add(1);
        cuts.push(Cut { a, b, zone: *zone }).ok()?;
        a = b;
    }
    let wire = fragments(alloc, rects_of(alloc, parts)?, cuts)?;
    if wire.rects.as_slice().len() != colours.len() {
        return None;
    }
    let found = areas(&wire, colours);
    Some((found.a, found.b))
}

/// A wire that is cut in its middle, with its two parts on two masks.
#[test]
fn zones_are_half_in_each_fragment(rt: HostRuntime) {
    let parts = [(0, 0, 500, 200), (500, 0, 1000, 200)];
    let zones = [(480, 0, 520, 200)];
    for (colours, wanted) in [
        ([false, true], (104_000, 104_000)),
        ([false, false], (200_000, 0)),
    ] {
        assert_eq!(rt; cells(rt.alloc(), &parts, &zones, &colours), Some(wanted));
    }
}

/// A wire that is cut twice, and an upright one: a zone counts where its stitch is broken alone.
#[test]
fn zones_count_where_stitches_are_broken(rt: HostRuntime) {
    let parts = [(0, 0, 500, 200), (500, 0, 1000, 200), (1000, 0, 1500, 200)];
    let zones = [(480, 0, 520, 200), (980, 0, 1020, 200)];
    for (colours, wanted) in [
        ([false, true, true], (104_000, 204_000)),
        ([false, true, false], (208_000, 108_000)),
        ([true, true, true], (0, 300_000)),
    ] {
        assert_eq!(rt; cells(rt.alloc(), &parts, &zones, &colours), Some(wanted));
    }
    let parts = [(0, 0, 100, 394), (0, 394, 100, 788)];
    let zones = [(0, 374, 100, 414)];
    assert_eq!(rt;
        cells(rt.alloc(), &parts, &zones, &[true, false]),
        Some((41_400, 41_400))
    );
}

/// Bars of length 500, 300 and 200.
const BARS: [Ends; 3] = [(0, 0, 500, 200), (800, 0, 1100, 200), (1500, 0, 1700, 200)];

/// The mask of each bar, how many boxes mask A has, and how many mask B.
#[derive(Clone, Copy, Debug, PartialEq, Eq)]
struct Masks {
    first: bool,
    second: bool,
    third: bool,
    on_a: usize,
    on_b: usize,
}

fn masks_of(report: &Report) -> Option<Masks> {
    let colours = report.colours.as_slice();
    if colours.len() != 3 {
        return None;
    }
    Some(Masks {
        first: colours[0],
        second: colours[1],
        third: colours[2],
        on_a: report.on_a.as_slice().len(),
        on_b: report.on_b.as_slice().len(),
    })
}

/// The bars after balancing, where these edges join them. The cost and the bound stay.
fn bars(alloc: Global, links: &[Edge], colours: &[bool]) -> Option<Masks> {
    let found = balanced(alloc, rects_of(alloc, &BARS)?, links, colours)?;
    if found.cost != 7 || found.bound != 9 {
        return None;
    }
    masks_of(&found)
}

fn are(first: bool, second: bool, third: bool, on_a: usize, on_b: usize) -> Option<Masks> {
    Some(Masks {
        first,
        second,
        third,
        on_a,
        on_b,
    })
}

/// The cells count, not the bars, so the longest stands alone.
#[test]
fn bars_are_shared_out_by_their_cells(rt: HostRuntime) {
    assert_eq!(rt;
        bars(rt.alloc(), &[], &[false, false, false]),
        are(false, true, true, 1, 2)
    );
}

/// Edges of each kind make one component, whose fragments are turned over together or not at all.
#[test]
fn components_are_turned_over_whole(rt: HostRuntime) {
    assert_eq!(rt;
        bars(rt.alloc(), &[Edge::bond(0, 2)], &[false, false, false]),
        are(false, true, false, 2, 1)
    );
    assert_eq!(rt;
        bars(rt.alloc(), &[Edge::clash(1, 2, 10)], &[false, false, true]),
        are(false, true, false, 2, 1)
    );
    let links = [Edge::bond(0, 1), Edge::stitch(0, 2, 1)];
    assert_eq!(rt;
        bars(rt.alloc(), &links, &[false, false, false]),
        are(false, false, false, 3, 0)
    );
}
