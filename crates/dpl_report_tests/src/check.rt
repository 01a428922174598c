use crate::asked::asked;
use crate::report::{TRIANGLE as REPORT, with_line};
use dpl_check::{Verdict, check};
use std::alloc::Global;

/// Nothing in the first version, with a conflict weight of 7.
const FIRST: &[u8] =
    b"(dpl 1);\n(layer M);\n(space 100);\n(overlap 20);\n(stitch 1);\n(conflict 7);\n(pieces 0);\n(fragments 0);\n(bonds 0);\n(stitches 0);\n(clashes 0);\n(excess 0);\n(cost 0);\n(bound 0);\n(masks );\nDS 1 1 4;\nL MA;\nL MB;\nDF;\nC 1;\nE\n";

/// Nothing in the second version, with a corner weight of 3.
const SECOND: &[u8] =
    b"(dpl 2);\n(layer M);\n(space 100);\n(overlap 20);\n(stitch 1);\n(conflict 7);\n(pieces 0);\n(fragments 0);\n(bonds 0);\n(stitches 0);\n(clashes 0);\n(excess 0);\n(cost 0);\n(bound 0);\n(masks );\n(corner 3);\nDS 1 1 4;\nL MA;\nL MB;\nDF;\nC 1;\nE\n";

/// The same with a keep layer.
const KEPT: &[u8] =
    b"(dpl 2);\n(layer M);\n(space 100);\n(overlap 20);\n(stitch 1);\n(conflict 7);\n(pieces 0);\n(fragments 0);\n(bonds 0);\n(stitches 0);\n(clashes 0);\n(excess 0);\n(cost 0);\n(bound 0);\n(masks );\n(corner 3);\n(keep KL);\nDS 1 1 4;\nL MA;\nL MB;\nDF;\nC 1;\nE\n";

/// What is answered of a report for a layout, where these weights and this keep layer are asked for.
fn answer(
    alloc: Global,
    text: &[u8],
    report: &[u8],
    conflict: u64,
    corner: u64,
    keep: &[u8],
) -> Option<Verdict> {
    if text.len() > 1000 {
        return None;
    }
    if report.len() > 1000 {
        return None;
    }
    let options = asked(conflict, corner, keep)?;
    check(alloc, text, &options, report).ok()
}

/// What is answered for an empty layout.
fn empty(alloc: Global, report: &[u8], conflict: u64, corner: u64, keep: &[u8]) -> Option<Verdict> {
    answer(alloc, b"E", report, conflict, corner, keep)
}

/// Condition 2 fails in this line, with these values.
fn no(place: u64, found: i64, wanted: i64) -> Option<Verdict> {
    Some(Verdict::No {
        reason: 2,
        place,
        found,
        wanted,
    })
}

fn yes(cost: u64, bound: u64) -> Option<Verdict> {
    Some(Verdict::Yes { cost, bound })
}

/// A report of the first version is one for corners that weigh what every conflict weighs.
#[test]
fn a_first_version_and_corner_weights(rt: HostRuntime) {
    for (conflict, corner, wanted) in [
        (7, 7, yes(0, 0)),
        (7, 3, no(16, 7, 3)),
        (7, 10, no(16, 7, 10)),
        (3, 7, no(6, 7, 3)),
    ] {
        assert!(rt; empty(rt.alloc(), FIRST, conflict, corner, b"") == wanted);
    }
}

/// It is one for no keep layer. The corner weight is compared before.
#[test]
fn a_first_version_and_keep_layers(rt: HostRuntime) {
    for (corner, wanted) in [(7, no(17, 256, 75)), (3, no(16, 7, 3))] {
        assert!(rt; empty(rt.alloc(), FIRST, 7, corner, b"KL") == wanted);
    }
}

/// A report of the second version names both, and is compared by both: first by the corner weight. A name that ends
/// counts as 256 there.
#[test]
fn a_second_version_against_other_options(rt: HostRuntime) {
    for (report, corner, keep, wanted) in [
        (SECOND, 3, b"".as_slice(), yes(0, 0)),
        (KEPT, 3, b"KL", yes(0, 0)),
        (SECOND, 7, b"", no(16, 3, 7)),
        (SECOND, 3, b"K", no(17, 256, 75)),
        (KEPT, 3, b"", no(17, 75, 256)),
        (KEPT, 3, b"K", no(17, 76, 256)),
        (KEPT, 3, b"KLM", no(17, 256, 77)),
        (KEPT, 3, b"KM", no(17, 76, 77)),
        (KEPT, 7, b"KM", no(16, 3, 7)),
    ] {
        assert!(rt; empty(rt.alloc(), report, 7, corner, keep) == wanted);
    }
}

/// An L of three boxes, whose clash between corners is broken.
const CORNER: &[u8] =
    b"(dpl 2);\n(layer M);\n(space 100);\n(overlap 20);\n(stitch 1);\n(conflict 10);\n(pieces 3);\n(fragments 3);\n(bonds 0);\n(stitches 0);\n(clashes 3);\n(excess 0);\n(cost 3);\n(bound 6);\n(masks ABB);\n(corner 3);\n(clash 2 1 2);\n(cycle 6 0 0 2 1);\nDS 1 1 4;\nL MA;\nB 400 400 200 200;\nL MB;\nB 400 400 800 200;\nB 400 400 200 800;\nDF;\nC 1;\nE\n";

/// The same in the first version, where the clash weighs 10 and the bound could be greater.
const PLAIN: &[u8] =
    b"(dpl 1);\n(layer M);\n(space 100);\n(overlap 20);\n(stitch 1);\n(conflict 10);\n(pieces 3);\n(fragments 3);\n(bonds 0);\n(stitches 0);\n(clashes 3);\n(excess 0);\n(cost 10);\n(bound 6);\n(masks ABB);\n(clash 2 1 2);\n(cycle 6 0 0 2 1);\nDS 1 1 4;\nL MA;\nB 400 400 200 200;\nL MB;\nB 400 400 800 200;\nB 400 400 200 800;\nDF;\nC 1;\nE\n";

/// The same with a bound beyond twice the weight of the clash between corners.
const OVER: &[u8] =
    b"(dpl 2);\n(layer M);\n(space 100);\n(overlap 20);\n(stitch 1);\n(conflict 10);\n(pieces 3);\n(fragments 3);\n(bonds 0);\n(stitches 0);\n(clashes 3);\n(excess 0);\n(cost 3);\n(bound 7);\n(masks ABB);\n(corner 3);\n(clash 2 1 2);\n(cycle 7 0 0 2 1);\nDS 1 1 4;\nL MA;\nB 400 400 200 200;\nL MB;\nB 400 400 800 200;\nB 400 400 200 800;\nDF;\nC 1;\nE\n";

#[test]
fn a_clash_between_corners(rt: HostRuntime) {
    let text = b"L M; B 100 100 50 50; B 100 100 200 50; B 100 100 50 200; E".as_slice();
    let over = Verdict::No {
        reason: 8,
        place: 2,
        found: 7,
        wanted: 6,
    };
    for (report, corner, wanted) in [
        (CORNER, 3, yes(3, 6)),
        (PLAIN, 10, yes(10, 6)),
        (PLAIN, 3, no(16, 10, 3)),
        (OVER, 3, Some(over)),
    ] {
        assert!(rt; answer(rt.alloc(), text, report, 10, corner, b"") == wanted);
    }
}

/// A box, one half of it on each mask.
const HALVES: &[u8] =
    b"(dpl 2);\n(layer M);\n(space 100);\n(overlap 20);\n(stitch 1);\n(conflict 10);\n(pieces 1);\n(fragments 1);\n(bonds 0);\n(stitches 0);\n(clashes 0);\n(excess 0);\n(cost 0);\n(bound 0);\n(masks A);\n(corner 10);\n(keep M);\nDS 1 1 4;\nL MA;\nB 200 400 100 200;\nL MB;\nB 200 400 300 200;\nDF;\nC 1;\nE\n";

/// Two tiles of one shape, with two letters.
const TORN: &[u8] =
    b"(dpl 2);\n(layer M);\n(space 100);\n(overlap 20);\n(stitch 1);\n(conflict 10);\n(pieces 1);\n(fragments 2);\n(bonds 1);\n(stitches 0);\n(clashes 0);\n(excess 0);\n(cost 0);\n(bound 0);\n(masks AB);\n(corner 10);\n(keep M);\nDS 1 1 4;\nL MA;\nB 400 1200 800 600;\nL MB;\nB 1600 400 800 1400;\nDF;\nC 1;\nE\n";

/// Three shapes around a triangle, of which one is torn between its two tiles, so that nothing seems broken.
const TRIANGLE: &[u8] =
    b"(dpl 2);\n(layer M);\n(space 100);\n(overlap 20);\n(stitch 1);\n(conflict 10);\n(pieces 3);\n(fragments 4);\n(bonds 1);\n(stitches 0);\n(clashes 3);\n(excess 0);\n(cost 0);\n(bound 0);\n(masks ABBA);\n(corner 10);\n(keep M);\nDS 1 1 4;\nL MA;\nB 1600 400 800 200;\nB 1600 400 1400 1400;\nL MB;\nB 400 1000 2000 500;\nB 400 1200 200 1000;\nDF;\nC 1;\nE\n";

/// Masks that are together the layer, and of which none holds two shapes too close, are no masks of it where a feature is torn.
#[test]
fn a_feature_that_is_torn(rt: HostRuntime) {
    let one = b"L M; B 100 100 50 50; E".as_slice();
    let two = b"L M; B 400 100 200 350; B 100 300 200 150; E".as_slice();
    let three =
        b"L M; P 0 0 400 0 400 100 100 100 100 400 0 400; P 450 0 550 0 550 250 450 250; P 150 300 550 300 550 400 150 400; E".as_slice();
    for (text, report, reason, place) in [
        (one, HALVES, 9, 4_294_967_297),
        (two, TORN, 4, 0),
        (three, TRIANGLE, 4, 0),
    ] {
        let wanted = Verdict::No {
            reason,
            place,
            found: 1,
            wanted: 0,
        };
        assert!(rt; answer(rt.alloc(), text, report, 10, 10, b"M") == Some(wanted));
    }
}

/// The three squares of that report.
const SQUARES: &[u8] = b"L M; B 100 100 50 50; B 100 100 200 50; B 100 100 125 200; E";

/// Another text in place of the line with this number.
type Changed = (usize, &'static [u8]);

/// Condition, place, found and wanted.
type Missed = (u8, u64, i64, i64);

/// What is answered for the three squares, where two lines of their report are other ones.
fn changed(alloc: Global, first: Changed, second: Changed) -> Option<Verdict> {
    let once = with_line(alloc, REPORT, first.0, first.1).ok()?;
    let twice = with_line(alloc, once.as_slice(), second.0, second.1).ok()?;
    answer(alloc, SQUARES, twice.as_slice(), 10, 10, b"")
}

/// No line is another one.
const SAME: Changed = (0, b"");

fn missed(found: Missed) -> Option<Verdict> {
    let (reason, place, found, wanted) = found;
    Some(Verdict::No {
        reason,
        place,
        found,
        wanted,
    })
}

#[test]
fn the_report_of_three_squares(rt: HostRuntime) {
    assert!(rt; changed(rt.alloc(), SAME, SAME) == yes(10, 20));
}

/// The values of the options and the counts are told at their lines.
#[test]
fn wrong_numbers_are_told_at_their_lines(rt: HostRuntime) {
    let rows: [(Changed, Missed); 10] = [
        ((1, b"(dpl 9);\n"), (1, 1, 0, 0)),
        ((3, b"(space 101);\n"), (2, 3, 101, 100)),
        ((4, b"(overlap 21);\n"), (2, 4, 21, 20)),
        ((5, b"(stitch 2);\n"), (2, 5, 2, 1)),
        ((6, b"(conflict 11);\n"), (2, 6, 11, 10)),
        ((7, b"(pieces 2);\n"), (3, 7, 2, 3)),
        ((9, b"(bonds 1);\n"), (3, 9, 1, 0)),
        ((10, b"(stitches 1);\n"), (3, 10, 1, 0)),
        ((11, b"(clashes 2);\n"), (3, 11, 2, 3)),
        ((12, b"(excess 2);\n"), (3, 12, 2, 0)),
    ];
    for (line, wanted) in rows {
        assert!(rt; changed(rt.alloc(), line, SAME) == missed(wanted));
    }
    let letter = (15, b"(masks AABB);\n".as_slice());
    let more = changed(rt.alloc(), (8, b"(fragments 4);\n"), letter);
    assert!(rt; more == missed((3, 8, 4, 3)));
}

/// What is answered for an empty layout, where the report of nothing has another layer on these three lines.
fn renamed(alloc: Global, name: &[u8], first: &[u8], second: &[u8]) -> Option<Verdict> {
    let once = with_line(alloc, FIRST, 2, name).ok()?;
    let twice = with_line(alloc, once.as_slice(), 17, first).ok()?;
    let report = with_line(alloc, twice.as_slice(), 18, second).ok()?;
    empty(alloc, report.as_slice(), 7, 7, b"")
}

/// Of two names the first bytes that differ are told, 256 for the end of one.
#[test]
fn another_layer_is_told_by_its_bytes(rt: HostRuntime) {
    let other = renamed(rt.alloc(), b"(layer N);\n", b"L NA;\n", b"L NB;\n");
    assert!(rt; other == missed((2, 2, 78, 77)));
    let longer = renamed(rt.alloc(), b"(layer M1);\n", b"L M1A;\n", b"L M1B;\n");
    assert!(rt; longer == missed((2, 2, 49, 256)));
}

/// Lines of edges that differ are told at the least edge, and the cost at the number of edges.
#[test]
fn wrong_edges_are_told_at_the_edge(rt: HostRuntime) {
    let rows: [(Changed, Missed); 7] = [
        ((13, b"(cost 11);\n"), (5, 3, 11, 10)),
        ((15, b"(masks ABB);\n"), (5, 0, 1, 0)),
        ((16, b""), (5, 0, 0, 1)),
        ((16, b"(clash 0 0 2);\n"), (5, 0, 2, 1)),
        ((16, b"(clash 0 0 1);\n(clash 2 1 2);\n"), (5, 2, 1, 0)),
        (
            (16, b"(cut 1 0 2 0 0 2 2);\n(clash 0 0 1);\n"),
            (5, 1, 1, 0),
        ),
        ((16, b"(clash 0 0 1);\n(aside 1);\n"), (6, 1, 1, 0)),
    ];
    for (line, wanted) in rows {
        assert!(rt; changed(rt.alloc(), line, SAME) == missed(wanted));
    }
}

/// A cycle that is no walk is told by its place, one past its last where it does not end at its start. An even one is told
/// by nothing but that.
#[test]
fn wrong_cycles_are_told_by_their_number(rt: HostRuntime) {
    let rows: [(Changed, Missed); 8] = [
        ((17, b"(cycle 20 0 0 2);\n"), (7, 0, 3, 0)),
        ((17, b"(cycle 20 0 2 1 0);\n"), (7, 0, 1, 0)),
        ((17, b"(cycle 20 0 0 0);\n"), (7, 0, 0, 1)),
        (
            (17, b"(cycle 20 0 0 2 1);\n(cycle 1 1 0 0);\n"),
            (7, 1, 0, 1),
        ),
        ((17, b"(cycle 20 0 0 2 1 1 1);\n"), (8, 1, 40, 20)),
        (
            (17, b"(cycle 20 0 0 2 1);\n(cycle 1 0 0 2 1);\n"),
            (8, 0, 21, 20),
        ),
        ((17, b"(cycle 10 0 0 2 1);\n"), (8, 3, 10, 20)),
        ((14, b"(bound 19);\n"), (8, 3, 20, 19)),
    ];
    for (line, wanted) in rows {
        assert!(rt; changed(rt.alloc(), line, SAME) == missed(wanted));
    }
}

/// The boxes of both masks are counted together from 0, those of A first, and their numbers have places of their own.
#[test]
fn wrong_boxes_are_told_by_their_place(rt: HostRuntime) {
    let rows: [(Changed, Missed); 7] = [
        ((15, b"(masks BBA);\n"), (9, 4_294_967_296, 2, 1)),
        (
            (23, b"B 400 400 500 800;\nB 400 400 500 800;\n"),
            (9, 4_294_967_297, 2, 1),
        ),
        ((20, b"B 400 400 202 200;\n"), (9, 0, 1, 0)),
        ((21, b"B 400 400 800 202;\n"), (9, 1, 1, 0)),
        ((21, b"B 404 400 802 200;\n"), (9, 1, 502, 500)),
        ((23, b"B 400 404 500 802;\n"), (9, 2, 502, 500)),
        ((23, b"B 400 400 502 800;\n"), (9, 2, 151, 150)),
    ];
    for (line, wanted) in rows {
        assert!(rt; changed(rt.alloc(), line, SAME) == missed(wanted));
    }
}

/// Where two conditions fail, the first is told. Of two lines the second is counted with the first one changed.
#[test]
fn conditions_are_told_in_order(rt: HostRuntime) {
    let excess: Changed = (12, b"(excess 2);\n");
    let cost: Changed = (13, b"(cost 11);\n");
    let bound: Changed = (14, b"(bound 19);\n");
    let aside: Changed = (16, b"(clash 0 0 1);\n(aside 1);\n");
    let open: Changed = (17, b"(cycle 20 0 0 2);\n");
    let rows: [(Changed, Changed, Missed); 6] = [
        ((6, b"(conflict 11);\n"), excess, (2, 6, 11, 10)),
        (excess, cost, (3, 12, 2, 0)),
        (cost, aside, (5, 3, 11, 10)),
        (open, aside, (6, 1, 1, 0)),
        (bound, open, (7, 0, 3, 0)),
        (bound, (20, b"B 400 400 202 200;\n"), (8, 3, 20, 19)),
    ];
    for (first, second, wanted) in rows {
        assert!(rt; changed(rt.alloc(), first, second) == missed(wanted));
    }
}

/// A wire between two boxes and two wires, which is cut in its middle; the masks overlap there.
const STITCHED: &[u8] =
    b"(dpl 2);\n(layer M);\n(space 100);\n(overlap 20);\n(stitch 1);\n(conflict 10);\n(pieces 8);\n(fragments 8);\n(bonds 0);\n(stitches 3);\n(clashes 5);\n(excess 0);\n(cost 1);\n(bound 2);\n(masks ABBAAABB);\n(corner 10);\n(cut 0 0 1 980 0 1020 200);\n(cycle 2 0 3 5 1 7 2 6 4 0);\nDS 1 1 4;\nL MA;\nB 2000 400 1000 200;\nB 400 400 3800 800;\nB 1174 400 587 1400;\nB 626 400 1487 1400;\nB 80 400 2000 200;\nL MB;\nB 2000 400 3000 200;\nB 400 400 200 800;\nB 726 400 2363 1400;\nB 1274 400 3363 1400;\nB 80 400 2000 200;\nDF;\nC 1;\nE\n";

/// Four boxes in a square: two clashes are set aside, of which one is broken, and one that is kept.
const ASIDE: &[u8] =
    b"(dpl 2);\n(layer M);\n(space 100);\n(overlap 20);\n(stitch 1);\n(conflict 10);\n(pieces 4);\n(fragments 4);\n(bonds 0);\n(stitches 0);\n(clashes 6);\n(excess 2);\n(cost 20);\n(bound 20);\n(masks AABB);\n(corner 10);\n(clash 0 0 1);\n(clash 5 2 3);\n(aside 4);\n(aside 5);\n(cycle 20 0 1 3 0);\nDS 1 1 4;\nL MA;\nB 400 400 200 200;\nB 400 400 800 200;\nL MB;\nB 400 400 200 800;\nB 400 400 800 800;\nDF;\nC 1;\nE\n";

/// What is answered for a text, where a line of its report is another one.
fn answer_changed(alloc: Global, text: &[u8], report: &[u8], line: Changed) -> Option<Verdict> {
    let changed = with_line(alloc, report, line.0, line.1).ok()?;
    answer(alloc, text, changed.as_slice(), 10, 10, b"")
}

/// A report that an independent program wrote. A zone that ends elsewhere is told by the first number that differs.
#[test]
fn a_wire_that_is_cut(rt: HostRuntime) {
    let text =
        b"L M; B 1000 100 500 50; B 100 100 50 200; B 100 100 950 200; B 450 100 225 350; B 500 100 750 350; E".as_slice();
    let rows: [(Changed, Option<Verdict>); 6] = [
        (SAME, yes(1, 2)),
        (
            (17, b"(cut 0 0 1 980 0 1021 200);\n"),
            missed((5, 0, 1021, 1020)),
        ),
        (
            (17, b"(cut 0 0 1 980 0 1020 199);\n"),
            missed((5, 0, 199, 200)),
        ),
        ((17, b"(cut 0 0 2 980 0 1020 200);\n"), missed((5, 0, 2, 1))),
        ((17, b""), missed((5, 0, 0, 1))),
        ((25, b""), missed((9, 4_294_967_296, 4, 5))),
    ];
    for (line, wanted) in rows {
        assert!(rt; answer_changed(rt.alloc(), text, STITCHED, line) == wanted);
    }
}

/// Another one of its reports, of a square. An edge that is set aside and not listed is told by its number.
#[test]
fn edges_that_are_set_aside(rt: HostRuntime) {
    let text =
        b"L M; B 100 100 50 50; B 100 100 200 50; B 100 100 50 200; B 100 100 200 200; E".as_slice();
    let rows: [(Changed, Option<Verdict>); 6] = [
        (SAME, yes(20, 20)),
        ((18, b""), missed((5, 5, 0, 1))),
        ((19, b""), missed((6, 4, 0, 1))),
        ((20, b""), missed((6, 5, 0, 1))),
        ((19, b"(aside 3);\n"), missed((6, 3, 1, 0))),
        ((12, b"(excess 1);\n"), missed((3, 12, 1, 2))),
    ];
    for (line, wanted) in rows {
        assert!(rt; answer_changed(rt.alloc(), text, ASIDE, line) == wanted);
    }
}
