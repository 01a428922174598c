use dpl_cell::Rect;
use dpl_cuts::types::Fragments;
use dpl_euler::types::{Bar, Crossing, Drawn, With};
use dpl_euler::{bar, crossing, drawn, excess_of};
use dpl_list::Items;
use dpl_test_nets::nets::At::{
    East, North, NorthEast, NorthWest, South, SouthEast, SouthWest, West,
};
use dpl_test_nets::nets::{Link, bond, clash, net};
use std::alloc::{AllocError, Global};
use std::process::Abort;
use std::test::Fail;

type Corners = (i64, i64, i64, i64);

fn rects_of(alloc: Global, corners: &[Corners]) -> Result<Vec<Rect>, Fail> {
    let mut rects = Vec::new(alloc);
    for (x1, y1, x2, y2) in corners {
        rects.push(Rect::new(*x1, *y1, *x2, *y2).ok_or("out of range")?)?;
    }
    Ok(rects)
}

/// Fragments without cuts, all of one tile, by their corners.
fn boxes(alloc: Global, corners: &[Corners]) -> Result<Fragments, Fail> {
    let rects = Items::new(rects_of(alloc, corners)?);
    let tile = Items::new(vec![in alloc; 0u32; corners.len()]?);
    let shape = Items::new(vec![in alloc; 0u32; corners.len()]?);
    let cuts = Items::new(Vec::new(alloc));
    Ok(Fragments {
        rects,
        tile,
        shape,
        cuts,
    })
}

/// Clashes between pairs of boxes. The ports, which do not matter to crossings, are all one.
fn clashes(alloc: Global, pairs: &[(u32, u32)]) -> Result<Vec<Link>, AllocError> {
    let mut links = Vec::new(alloc);
    for (a, b) in pairs {
        links.push(clash(*a, *b, 10, South(0), South(0)))?;
    }
    Ok(links)
}

/// A crossing of the links between pairs of boxes.
fn crossing_of(
    alloc: Global,
    nodes: u32,
    corners: &[Corners],
    pairs: &[(u32, u32)],
) -> Result<Option<Crossing>, Fail> {
    let fragments = boxes(alloc, corners)?;
    let links = clashes(alloc, pairs)?;
    let net = net(alloc, nodes, links.as_slice())?;
    if net.graph.nodes as usize != fragments.rects.as_slice().len() {
        return Err("not a node for each box")?;
    }
    Ok(crossing(alloc, &fragments, &net)?)
}

/// Compares a crossing of the links between pairs of boxes.
fn compare<R: Abort>(
    rt: &R,
    alloc: Global,
    nodes: u32,
    corners: &[Corners],
    pairs: &[(u32, u32)],
    wanted: Option<Crossing>,
) -> Result<(), Fail> {
    assert_eq!(rt; crossing_of(alloc, nodes, corners, pairs)?, wanted);
    Ok(())
}

/// The first edge of some links that crosses, and what it crosses.
fn link(edge: u32, other: u32) -> Option<Crossing> {
    let other = With::Link(other);
    Some(Crossing { edge, other })
}

/// The first edge of some links that crosses a fragment, and the fragment.
fn fragment(edge: u32, other: u32) -> Option<Crossing> {
    let other = With::Fragment(other);
    Some(Crossing { edge, other })
}

/// Compares the excess of a drawing, as it is found alone and with its bar.
fn compare_excess<R: Abort>(
    rt: &R,
    alloc: Global,
    nodes: u32,
    links: &[Link],
    wanted: u64,
) -> Result<(), Fail> {
    let net = net(alloc, nodes, links)?;
    assert_eq!(rt; excess_of(alloc, &net)?, wanted);
    assert_eq!(rt; drawn(alloc, &net)?.excess, wanted);
    Ok(())
}

/// Whether something bars an edge, as it is found alone and with the excess.
fn are_barred(alloc: Global, nodes: u32, links: &[Link]) -> Result<(bool, bool), Fail> {
    let net = net(alloc, nodes, links)?;
    let alone = bar(alloc, &net)?.is_some();
    let with_excess = drawn(alloc, &net)?.bar.is_some();
    Ok((alone, with_excess))
}

fn bar_of(alloc: Global, nodes: u32, links: &[Link]) -> Result<Bar, Fail> {
    let net = net(alloc, nodes, links)?;
    let Drawn { bar, .. } = drawn(alloc, &net)?;
    Ok(bar.ok_or("no bar")?)
}

/// Compares the barred edge, the face at its end, and how long the walk is.
fn compare_bar<R: Abort>(
    rt: &R,
    alloc: Global,
    nodes: u32,
    links: &[Link],
    edge: u32,
    face: &[u32],
    steps: usize,
) -> Result<(), Fail> {
    let found = bar_of(alloc, nodes, links)?;
    assert_eq!(rt; found.edge, edge);
    assert_eq!(rt; found.face.as_slice(), face);
    assert_eq!(rt; found.walk.as_slice().len(), steps);
    Ok(())
}

/// Compares the walk along kept edges.
fn compare_walk<R: Abort>(
    rt: &R,
    alloc: Global,
    nodes: u32,
    links: &[Link],
    walk: &[u32],
) -> Result<(), Fail> {
    let found = bar_of(alloc, nodes, links)?;
    assert_eq!(rt; found.walk.as_slice(), walk);
    Ok(())
}

const SQUARE: [Corners; 4] = [
    (0, 0, 100, 100),
    (150, 0, 250, 100),
    (0, 150, 100, 250),
    (150, 150, 250, 250),
];

/// Four boxes in a square, each close to the three others. The two links between opposite corners
/// cross, so the next side leads from one face of the others to another.
#[test]
fn four_boxes_in_a_square(rt: HostRuntime) -> Result<(), Fail> {
    let pairs = [(0, 1), (0, 2), (0, 3), (1, 2), (1, 3), (2, 3)];
    compare(&rt, rt.alloc(), 4, &SQUARE, &pairs, link(2, 3))?;
    let links = [
        clash(0, 1, 10, East(0), West(0)),
        clash(0, 2, 10, North(0), South(0)),
        clash(0, 3, 10, NorthEast(1, 1), SouthWest(1, 1)),
        clash(1, 2, 10, NorthWest(1, 1), SouthEast(1, 1)),
        clash(1, 3, 10, North(0), South(0)),
        clash(2, 3, 10, East(0), West(0)),
    ];
    compare_excess(&rt, rt.alloc(), 4, &links, 2)?;
    compare_bar(&rt, rt.alloc(), 4, &links, 4, &[6, 3, 0], 2)?;
    compare_walk(&rt, rt.alloc(), 4, &links, &[0, 2])
}

/// Without one of the two diagonals the square is plane, with either.
#[test]
fn a_square_with_one_diagonal(rt: HostRuntime) -> Result<(), Fail> {
    let rising = [(0, 1), (0, 2), (0, 3), (1, 3), (2, 3)];
    compare(&rt, rt.alloc(), 4, &SQUARE, &rising, None)?;
    let falling = [(0, 1), (0, 2), (1, 2), (1, 3), (2, 3)];
    compare(&rt, rt.alloc(), 4, &SQUARE, &falling, None)?;
    Ok(())
}

/// Four boxes. A link from the second, which ends at this row, to the third leads past a corner of the fourth.
fn around_an_end(top: i64) -> [Corners; 4] {
    [
        (0, 0, 100, 100),
        (200, 0, 300, top),
        (0, 200, 100, 300),
        (150, 150, 190, 190),
    ]
}

/// A link through the end of another crosses it, though it goes no further. A unit aside it misses it,
/// and meets the box alone on which the other ends.
#[test]
fn a_link_through_an_end(rt: HostRuntime) -> Result<(), Fail> {
    let pairs = [(0, 3), (1, 2)];
    let (touching, apart) = (around_an_end(100), around_an_end(102));
    compare(&rt, rt.alloc(), 4, &touching, &pairs, link(0, 1))?;
    compare(&rt, rt.alloc(), 4, &apart, &pairs, fragment(1, 3))?;
    Ok(())
}

/// A triangle is plane.
#[test]
fn a_triangle(rt: HostRuntime) -> Result<(), Fail> {
    let corners = [(0, 0, 100, 100), (150, 0, 250, 100), (0, 150, 100, 250)];
    let pairs = [(0, 1), (0, 2), (1, 2)];
    compare(&rt, rt.alloc(), 3, &corners, &pairs, None)?;
    let links = [
        clash(0, 1, 10, East(0), West(0)),
        clash(0, 2, 10, North(0), South(0)),
        clash(1, 2, 10, NorthWest(1, 1), SouthEast(1, 1)),
    ];
    compare_excess(&rt, rt.alloc(), 3, &links, 0)?;
    assert_eq!(rt; are_barred(rt.alloc(), 3, &links)?, (false, false));
    Ok(())
}

/// Three edges that come to two boxes in one order: the third leads from one face of the others to
/// the other one.
#[test]
fn three_edges_in_one_order(rt: HostRuntime) -> Result<(), Fail> {
    let links = [
        clash(0, 1, 10, East(0), West(0)),
        clash(0, 1, 10, East(1), West(1)),
        clash(0, 1, 10, East(2), West(2)),
    ];
    compare_excess(&rt, rt.alloc(), 2, &links, 2)?;
    compare_bar(&rt, rt.alloc(), 2, &links, 2, &[0, 3], 1)
}

/// A link between the outer two of three boxes in a row crosses the middle one, though the middle one
/// is of the same tile. Links between neighbours cross nothing.
#[test]
fn a_link_through_a_box(rt: HostRuntime) -> Result<(), Fail> {
    let row = [(0, 0, 100, 100), (100, 0, 250, 100), (300, 0, 400, 100)];
    compare(&rt, rt.alloc(), 3, &row, &[(0, 2)], fragment(0, 1))?;
    compare(&rt, rt.alloc(), 3, &row, &[(0, 1), (1, 2)], None)?;
    Ok(())
}

/// A corner link that passes the corner of a third box meets it, and one that passes a unit beside it
/// does not.
#[test]
fn a_corner_on_the_way(rt: HostRuntime) -> Result<(), Fail> {
    let meeting = [(0, 0, 100, 100), (150, 100, 190, 150), (200, 200, 300, 300)];
    compare(&rt, rt.alloc(), 3, &meeting, &[(0, 2)], fragment(0, 1))?;
    let beside = [(0, 0, 100, 100), (151, 100, 190, 150), (200, 200, 300, 300)];
    compare(&rt, rt.alloc(), 3, &beside, &[(0, 2)], None)?;
    Ok(())
}

/// Two pairs of boxes beside each other, and a box between them from the first of these rows to the second.
fn between_two_links(low: i64, high: i64) -> [Corners; 5] {
    [
        (0, 0, 100, 100),
        (200, 0, 300, 100),
        (0, 120, 100, 200),
        (200, 120, 300, 200),
        (120, low, 180, high),
    ]
}

/// A link along the side of a third box meets it, from below and from above, and one a unit away does
/// not.
#[test]
fn a_box_that_links_touch(rt: HostRuntime) -> Result<(), Fail> {
    let pairs = [(0, 1), (2, 3)];
    let between = between_two_links(50, 160);
    compare(&rt, rt.alloc(), 5, &between, &pairs, fragment(0, 4))?;
    let above = between_two_links(51, 160);
    compare(&rt, rt.alloc(), 5, &above, &pairs, fragment(1, 4))?;
    let free = between_two_links(51, 159);
    compare(&rt, rt.alloc(), 5, &free, &pairs, None)?;
    Ok(())
}

/// Two boxes at the ends of the rising diagonal, the first up to a corner and the second from one on, and two at the
/// ends of the falling one.
fn across(to: i64, from: i64) -> [Corners; 4] {
    [
        (0, 0, to, to),
        (from, from, 200, 200),
        (150, 0, 200, 50),
        (0, 150, 50, 200),
    ]
}

/// The link of two boxes that touch at a corner is one point. A link of two others through that point
/// crosses it.
#[test]
fn a_link_of_length_0(rt: HostRuntime) -> Result<(), Fail> {
    let pairs = [(0, 1), (2, 3)];
    let (through, past) = (across(100, 100), across(99, 101));
    compare(&rt, rt.alloc(), 4, &through, &pairs, link(0, 1))?;
    compare(&rt, rt.alloc(), 4, &past, &pairs, link(0, 1))?;
    Ok(())
}

/// The link of a bond is the middle of the side that its fragments share. A link of two others through that point crosses
/// it, and one a unit beside it does not, but meets the fragment there.
#[test]
fn a_link_through_a_bond(rt: HostRuntime) -> Result<(), Fail> {
    for (right, wanted) in [(150, link(0, 1)), (152, fragment(1, 1))] {
        let corners = [
            (0, 0, 100, 100),
            (100, 0, 200, 100),
            (50, -100, right, -50),
            (50, 150, right, 200),
        ];
        let fragments = boxes(rt.alloc(), &corners)?;
        let links = [
            bond(0, 1, East(0), West(0)),
            clash(2, 3, 10, North(0), South(0)),
        ];
        let net = net(rt.alloc(), 4, &links)?;
        if net.graph.nodes as usize != fragments.rects.as_slice().len() {
            return Err("not a node for each box")?;
        }
        assert_eq!(rt; crossing(rt.alloc(), &fragments, &net)?, wanted);
    }
    Ok(())
}

/// Links that begin at one corner of a box which both join do not cross. Where one of them begins there
/// on another box, they do.
#[test]
fn links_at_one_corner(rt: HostRuntime) -> Result<(), Fail> {
    let own = [(0, 0, 100, 100), (150, 150, 200, 200), (160, 110, 200, 120)];
    compare(&rt, rt.alloc(), 3, &own, &[(0, 1), (0, 2)], None)?;
    let other = [
        (0, 0, 100, 100),
        (150, 150, 200, 200),
        (160, 60, 200, 90),
        (60, 100, 100, 140),
    ];
    compare(&rt, rt.alloc(), 4, &other, &[(0, 1), (2, 3)], link(0, 1))?;
    Ok(())
}

/// Two edges between the same boxes have a whole link in common, and cross, unless it is one point.
#[test]
fn links_that_overlap(rt: HostRuntime) -> Result<(), Fail> {
    let pairs = [(0, 1), (0, 1)];
    let apart = [(0, 0, 100, 100), (150, 0, 250, 100)];
    compare(&rt, rt.alloc(), 2, &apart, &pairs, link(0, 1))?;
    let touching = [(0, 0, 100, 100), (100, 0, 200, 100)];
    compare(&rt, rt.alloc(), 2, &touching, &pairs, None)?;
    Ok(())
}

/// No edges and no fragments cross nothing.
#[test]
fn nothing_crosses_nothing(rt: HostRuntime) -> Result<(), Fail> {
    compare(&rt, rt.alloc(), 0, &[], &[], None)?;
    compare_excess(&rt, rt.alloc(), 0, &[], 0)?;
    assert_eq!(rt; are_barred(rt.alloc(), 0, &[])?, (false, false));
    Ok(())
}

/// Links from one end of the range of coordinates to the other.
#[test]
fn links_as_long_as_can_be(rt: HostRuntime) -> Result<(), Fail> {
    let most = 1_073_741_824;
    let far = [
        (-most, -most, 1 - most, 1 - most),
        (most - 1, -most, most, 1 - most),
        (-most, most - 1, 1 - most, most),
        (most - 1, most - 1, most, most),
    ];
    compare(&rt, rt.alloc(), 4, &far, &[(0, 3), (1, 2)], link(0, 1))?;
    compare(&rt, rt.alloc(), 4, &far, &[(0, 1), (2, 3)], None)?;
    Ok(())
}

/// A link leaves and arrives at the middle of the rows that both boxes share, not of their sides: a third box whose top is
/// there meets it, and one a unit lower does not. The same for columns.
#[test]
fn links_lead_over_common_rows(rt: HostRuntime) -> Result<(), Fail> {
    for (top, wanted) in [(350, fragment(0, 2)), (349, None)] {
        let rows = [(0, 0, 100, 400), (150, 300, 250, 700), (130, 345, 140, top)];
        compare(&rt, rt.alloc(), 3, &rows, &[(0, 1)], wanted)?;
        let columns = [(0, 0, 400, 100), (300, 150, 700, 250), (345, 130, top, 140)];
        compare(&rt, rt.alloc(), 3, &columns, &[(0, 1)], wanted)?;
    }
    Ok(())
}

/// A third box that a link between corners touches at one corner alone, from either side of it.
#[test]
fn corners_that_a_link_touches(rt: HostRuntime) -> Result<(), Fail> {
    for (third, wanted) in [
        ((150, 100, 190, 150), fragment(0, 2)),
        ((151, 100, 190, 150), None),
        ((100, 150, 150, 190), fragment(0, 2)),
        ((100, 151, 150, 190), None),
    ] {
        let boxes = [(0, 0, 100, 100), (200, 200, 300, 300), third];
        compare(&rt, rt.alloc(), 3, &boxes, &[(0, 1)], wanted)?;
    }
    Ok(())
}
