use crate::asked::asked;
use dpl_core::{LayerError, balance_commands, make, parts, refine_commands, split, split_commands};
use dpl_lex::commands;
use dpl_options::name_bytes;
use dpl_report::Report;
use std::alloc::Global;
use std::test::Fail;

/// The report of layer M, where a clash weighs 10 and one between corners this, and this keep layer is kept whole, or why
/// there is none.
fn made(
    alloc: Global,
    text: &[u8],
    corner: u64,
    keep: &[u8],
) -> Option<Result<Report, LayerError>> {
    if text.len() > 10_000 {
        return None;
    }
    let options = asked(10, corner, keep)?;
    Some(make(alloc, text, &options))
}

fn report(alloc: Global, text: &[u8], corner: u64, keep: &[u8]) -> Option<Report> {
    made(alloc, text, corner, keep)?.ok()
}

/// The counts of a report, its cost and bound, and how many stitches are broken, clashes are broken and edges are set
/// aside.
#[derive(Clone, Copy)]
struct Figures {
    fragments: u64,
    stitches: u64,
    clashes: u64,
    excess: u64,
    cost: u64,
    bound: u64,
    cuts: usize,
    broken: usize,
    aside: usize,
}

fn figures_in(report: &Report) -> Figures {
    Figures {
        fragments: report.counts.fragments,
        stitches: report.counts.stitches,
        clashes: report.counts.clashes,
        excess: report.counts.excess,
        cost: report.cost,
        bound: report.bound,
        cuts: report.cuts.as_slice().len(),
        broken: report.clashes.as_slice().len(),
        aside: report.aside.as_slice().len(),
    }
}

/// The figures of a layout, where a clash between corners has this weight and this layer is kept whole.
fn figures_of(alloc: Global, text: &[u8], corner: u64, keep: &[u8]) -> Result<Figures, Fail> {
    match report(alloc, text, corner, keep) {
        Some(report) => Ok(figures_in(&report)),
        None => Err("refused".into()),
    }
}

/// Three boxes, each too close to the others.
const TRIANGLE: &[u8] = b"L M; B 100 100 50 50; B 100 100 200 50; B 100 100 125 200; E";

/// A wire with two boxes above its ends and two wires above them, and what the keep layer covers of it.
const WIRES: &[u8] = b"L M; B 1000 100 500 50; B 100 100 50 200; B 100 100 950 200; \
      B 450 100 225 350; B 500 100 750 350; E";

const KEPT_WIRES: &[u8] = b"L M; B 1000 100 500 50; B 100 100 50 200; B 100 100 950 200; \
      B 450 100 225 350; B 500 100 750 350; L K; B 1000 500 500 200; E";

/// A wire whose free stretch is as long as the overlap: the keep layer leaves two that are too short.
const SHORT: &[u8] =
    b"L M; B 394 100 197 50; B 100 100 50 200; B 100 100 344 200; L K; B 2 100 197 50; E";

/// Four boxes in a square, each too close to the others: two clashes cross.
const SQUARE: &[u8] =
    b"L M; B 100 100 50 50; B 100 100 200 50; B 100 100 50 200; B 100 100 200 200; E";

/// An L of three boxes: one clash is between corners.
const CORNER: &[u8] = b"L M; B 100 100 50 50; B 100 100 200 50; B 100 100 50 200; E";

/// Whether there is a text, and it is this.
fn is_text(text: Option<Vec<u8>>, wanted: &[u8]) -> bool {
    match text {
        Some(text) => text.as_slice() == wanted,
        None => false,
    }
}

/// Whether there is a text, and it begins with this.
fn begins_with(text: Option<Vec<u8>>, front: &[u8]) -> bool {
    match text {
        Some(text) => text.starts_with(front),
        None => false,
    }
}

fn split_text(alloc: Global, text: &[u8]) -> Option<Vec<u8>> {
    if text.len() > 10_000 {
        return None;
    }
    let options = asked(10, 10, b"")?;
    split(alloc, text, &options).ok()
}

/// The same where the text is cut into commands before, or why there is none.
fn split_cut(alloc: Global, text: &[u8]) -> Option<Result<Vec<u8>, LayerError>> {
    if text.len() > 10_000 {
        return None;
    }
    let options = asked(10, 10, b"")?;
    let commands = commands(alloc, text).ok()?;
    Some(split_commands(alloc, text, &commands, &options))
}

fn split_cut_text(alloc: Global, text: &[u8]) -> Option<Vec<u8>> {
    split_cut(alloc, text)?.ok()
}

fn refusal_of_cut_text(alloc: Global, text: &[u8]) -> Option<LayerError> {
    split_cut(alloc, text)?.err()
}

fn balanced_text(alloc: Global, text: &[u8]) -> Option<Vec<u8>> {
    if text.len() > 10_000 {
        return None;
    }
    let options = asked(10, 10, b"")?;
    let commands = commands(alloc, text).ok()?;
    balance_commands(alloc, text, &commands, &options).ok()
}

fn refined_text(alloc: Global, text: &[u8]) -> Option<Vec<u8>> {
    if text.len() > 10_000 {
        return None;
    }
    let options = asked(10, 10, b"")?;
    let commands = commands(alloc, text).ok()?;
    refine_commands(alloc, text, &commands, &options).ok()
}

#[test]
fn nothing(rt: HostRuntime) {
    let wanted = b"(dpl 2);\n(layer M);\n(space 100);\n(overlap 20);\n(stitch 1);\n(conflict 10);\n\
      (pieces 0);\n(fragments 0);\n(bonds 0);\n(stitches 0);\n(clashes 0);\n(excess 0);\n\
      (cost 0);\n(bound 0);\n(masks );\n(corner 10);\nDS 1 1 4;\nL MA;\nL MB;\nDF;\nC 1;\nE\n";
    assert!(rt; is_text(split_text(rt.alloc(), b"E"), wanted));
}

#[test]
fn the_odd_triangle(rt: HostRuntime) -> Result<(), Fail> {
    let found = figures_of(rt.alloc(), TRIANGLE, 10, b"")?;
    assert_eq!(rt; (found.clashes, found.broken), (3, 1));
    assert_eq!(rt; (found.cost, found.bound), (10, 20));
    Ok(())
}

#[test]
fn a_stitch_is_cheaper(rt: HostRuntime) -> Result<(), Fail> {
    let found = figures_of(rt.alloc(), WIRES, 10, b"")?;
    assert_eq!(rt; (found.stitches, found.cuts), (3, 1));
    assert_eq!(rt; (found.cost, found.bound), (1, 2));
    Ok(())
}

/// Whether a report names the corner weight and the keep layer that were asked for.
fn names_options(alloc: Global, text: &[u8], corner: u64, keep: &[u8]) -> bool {
    match report(alloc, text, corner, keep) {
        Some(report) => {
            report.params.corner == Some(corner) && name_bytes(&report.params.keep) == keep
        }
        None => false,
    }
}

/// The same wire, which the keep layer covers: a clash is left, and the report names the keep layer.
#[test]
fn a_kept_wire_has_no_stitch(rt: HostRuntime) -> Result<(), Fail> {
    let found = figures_of(rt.alloc(), KEPT_WIRES, 10, b"K")?;
    assert_eq!(rt; (found.fragments, found.stitches, found.clashes), (5, 0, 5));
    assert_eq!(rt; (found.cost, found.bound), (10, 20));
    assert!(rt; names_options(rt.alloc(), KEPT_WIRES, 10, b"K"));
    Ok(())
}

#[test]
fn a_kept_cell_between_short_stretches(rt: HostRuntime) -> Result<(), Fail> {
    let found = figures_of(rt.alloc(), SHORT, 10, b"")?;
    assert_eq!(rt; (found.fragments, found.stitches), (4, 1));
    let found = figures_of(rt.alloc(), SHORT, 10, b"K")?;
    assert_eq!(rt; (found.fragments, found.stitches, found.clashes), (3, 0, 2));
    assert_eq!(rt; found.cost, 0);
    Ok(())
}

/// How many fragments and edges the parts of a text have.
fn parts_of(alloc: Global, text: &[u8]) -> Option<(usize, usize)> {
    if text.len() > 10_000 {
        return None;
    }
    let options = asked(10, 10, b"")?;
    let parts = parts(alloc, text, &options).ok()?;
    Some((
        parts.fragments.rects.as_slice().len(),
        parts.net.graph.edges.as_slice().len(),
    ))
}

#[test]
fn parts_and_their_report(rt: HostRuntime) {
    assert_eq!(rt; parts_of(rt.alloc(), SQUARE), Some((4, 6)));
}

#[test]
fn two_crossing_clashes(rt: HostRuntime) -> Result<(), Fail> {
    let found = figures_of(rt.alloc(), SQUARE, 10, b"")?;
    assert_eq!(rt; (found.excess, found.aside, found.bound), (2, 2, 20));
    Ok(())
}

/// Whether these clashes are broken and these edges set aside, where a clash between corners has this weight.
fn breaks(alloc: Global, text: &[u8], corner: u64, broken: &[u32], aside: &[u32]) -> Option<bool> {
    let report = report(alloc, text, corner, b"")?;
    let mut edges = Vec::new(alloc);
    for clash in report.clashes.as_slice() {
        edges.push(clash.edge).ok()?;
    }
    Some(edges.as_slice() == broken && report.aside.as_slice() == aside)
}

/// The clash between corners is the one that is left, where it weighs less.
#[test]
fn a_corner_that_weighs_less(rt: HostRuntime) -> Result<(), Fail> {
    let found = figures_of(rt.alloc(), CORNER, 3, b"")?;
    assert_eq!(rt; (found.clashes, found.cost, found.bound), (3, 3, 6));
    assert_eq!(rt; breaks(rt.alloc(), CORNER, 3, &[2], &[]), Some(true));
    assert!(rt; names_options(rt.alloc(), CORNER, 3, b""));
    let found = figures_of(rt.alloc(), CORNER, 10, b"")?;
    assert_eq!(rt; (found.cost, found.bound), (10, 20));
    Ok(())
}

/// Four boxes in a square, whose corners weigh least.
#[test]
fn two_crossing_clashes_that_weigh_less(rt: HostRuntime) -> Result<(), Fail> {
    let found = figures_of(rt.alloc(), SQUARE, 1, b"")?;
    assert_eq!(rt; (found.cost, found.bound), (21, 2));
    assert_eq!(rt;
        breaks(rt.alloc(), SQUARE, 1, &[3, 4, 5], &[4, 5]),
        Some(true)
    );
    Ok(())
}

fn is_split_the_same(alloc: Global, text: &[u8]) -> bool {
    match split_text(alloc, text) {
        Some(wanted) => is_text(split_cut_text(alloc, text), wanted.as_slice()),
        None => false,
    }
}

/// The same net from its commands: the report is the one of the text.
#[test]
fn two_crossing_clashes_in_commands(rt: HostRuntime) {
    let head = b"(dpl 2);\n(layer M);\n(space 100);\n(overlap 20);\n(stitch 1);\n(conflict 10);\n\
      (pieces 4);\n(fragments 4);\n(bonds 0);\n(stitches 0);\n(clashes 6);\n(excess 2);\n";
    assert!(rt; begins_with(split_cut_text(rt.alloc(), SQUARE), head));
    assert!(rt; is_split_the_same(rt.alloc(), SQUARE));
}

#[test]
fn too_far_in_commands(rt: HostRuntime) {
    let wanted = LayerError::Limit {
        kind: 4,
        count: 1_073_741_826,
    };
    let layout = b"L M; B 2 2 536870912 0; E";
    assert_eq!(rt; refusal_of_cut_text(rt.alloc(), layout), Some(wanted));
}

/// A zigzag of 515 boxes between which 513 triangles stand: the face around them is odd.
#[test]
fn an_odd_number_of_triangles(rt: HostRuntime) -> Result<(), Fail> {
    let layout =
        b"DS 1; L M; B 100 100 50 50; B 100 100 125 200; DF; DS 2; C 1; C 1 T 150 0; DF; DS 3; C 2; C \
      2 T 300 0; DF; DS 4; C 3; C 3 T 600 0; DF; DS 5; C 4; C 4 T 1200 0; DF; DS 6; C 5; C 5 T \
      2400 0; DF; DS 7; C 6; C 6 T 4800 0; DF; DS 8; C 7; C 7 T 9600 0; DF; DS 9; C 8; C 8 T 19200 \
      0; DF; C 9; C 1 T 38400 0; L M; B 100 100 38600 50; E";
    let found = figures_of(rt.alloc(), layout, 10, b"")?;
    assert_eq!(rt; (found.cost, found.bound), (2570, 5140));
    Ok(())
}

/// The same of 2,051 boxes and 2,049 triangles, all of one part.
#[test]
fn many_odd_faces(rt: HostRuntime) -> Result<(), Fail> {
    let layout =
        b"DS 1; L M; B 100 100 50 50; B 100 100 125 200; DF; DS 2; C 1; C 1 T 150 0; DF; DS 3; C 2; C \
      2 T 300 0; DF; DS 4; C 3; C 3 T 600 0; DF; DS 5; C 4; C 4 T 1200 0; DF; DS 6; C 5; C 5 T \
      2400 0; DF; DS 7; C 6; C 6 T 4800 0; DF; DS 8; C 7; C 7 T 9600 0; DF; DS 9; C 8; C 8 T 19200 \
      0; DF; DS 10; C 9; C 9 T 38400 0; DF; DS 11; C 10; C 10 T 76800 0; DF; C 11; C 1 T 153600 0; \
      L M; B 100 100 153800 50; E";
    let found = figures_of(rt.alloc(), layout, 10, b"")?;
    assert_eq!(rt;
        (found.clashes, found.cost, found.bound),
        (4099, 10250, 20500)
    );
    Ok(())
}

/// Three links at each corner of a box, and three at each side of a bar, turn around it as they are drawn: with the
/// links between neighbours the drawing is plane, and in the other order it would not be.
#[test]
fn links_turn_as_they_are_drawn(rt: HostRuntime) -> Result<(), Fail> {
    for text in [
        b"L M; B 100 100 50 50; B 10 10 200 110; B 10 10 155 155; B 10 10 110 200; E".as_slice(),
        b"L M; B 100 100 -50 50; B 10 10 -200 110; B 10 10 -155 155; B 10 10 -110 200; E",
        b"L M; B 100 100 50 -50; B 10 10 200 -110; B 10 10 155 -155; B 10 10 110 -200; E",
        b"L M; B 100 100 -50 -50; B 10 10 -200 -110; B 10 10 -155 -155; B 10 10 -110 -200; E",
        b"L M; B 200 100 100 50; B 40 40 20 170; B 40 40 100 170; B 40 40 180 170; E",
        b"L M; B 200 100 100 -50; B 40 40 20 -170; B 40 40 100 -170; B 40 40 180 -170; E",
        b"L M; B 100 200 50 100; B 40 40 170 20; B 40 40 170 100; B 40 40 170 180; E",
        b"L M; B 100 200 -50 100; B 40 40 -170 20; B 40 40 -170 100; B 40 40 -170 180; E",
    ] {
        let found = figures_of(rt.alloc(), text, 10, b"")?;
        assert_eq!(rt; (found.fragments, found.clashes), (4, 5));
        assert_eq!(rt; (found.excess, found.aside), (0, 0));
    }
    Ok(())
}

/// Whether the report of a layout has one empty mask.
fn has_an_empty_mask(alloc: Global, text: &[u8]) -> bool {
    match report(alloc, text, 10, b"") {
        Some(report) => report.on_a.as_slice().is_empty() || report.on_b.as_slice().is_empty(),
        None => false,
    }
}

/// Bars of length 500, 300 and 200: the longest is alone on its mask. `split` leaves all on one.
#[test]
fn masks_of_lone_bars(rt: HostRuntime) {
    let layout = b"L M; B 500 100 250 50; B 300 100 1250 50; B 200 100 2100 50; E";
    let wanted = b"(dpl 2);\n(layer M);\n(space 100);\n(overlap 20);\n(stitch 1);\n(conflict 10);\n\
      (pieces 3);\n(fragments 3);\n(bonds 0);\n(stitches 0);\n(clashes 0);\n(excess 0);\n\
      (cost 0);\n(bound 0);\n(masks ABB);\n(corner 10);\nDS 1 1 4;\nL MA;\nB 2000 400 1000 200;\n\
      L MB;\nB 1200 400 5000 200;\nB 800 400 8400 200;\nDF;\nC 1;\nE\n";
    assert!(rt; is_text(balanced_text(rt.alloc(), layout), wanted));
    assert!(rt; has_an_empty_mask(rt.alloc(), layout));
}

/// A pair of boxes whose clash is not broken stays on two masks, and a lone bar comes on the lighter one. The pair is 400
/// and 100 hundredths of a micron long, and the bar 200.
#[test]
fn a_pair_and_a_lone_bar(rt: HostRuntime) {
    let layout = b"L M; B 400 100 200 50; B 100 100 500 50; B 200 100 1000 50; E";
    let head = b"(dpl 2);\n(layer M);\n(space 100);\n(overlap 20);\n(stitch 1);\n(conflict 10);\n\
      (pieces 3);\n(fragments 3);\n(bonds 0);\n(stitches 0);\n(clashes 1);\n(excess 0);\n\
      (cost 0);\n(bound 0);\n(masks ABB);\n";
    assert!(rt; begins_with(balanced_text(rt.alloc(), layout), head));
}

/// Whether refining a layout writes the report that splitting it writes.
fn is_not_refined(alloc: Global, text: &[u8]) -> bool {
    match split_text(alloc, text) {
        Some(split) => is_text(refined_text(alloc, text), split.as_slice()),
        None => false,
    }
}

/// Three boxes, each too close to the other two: nothing is set aside, and refined it is the same report.
#[test]
fn a_plane_layout_is_not_refined(rt: HostRuntime) {
    let layout = b"L M; B 100 100 50 50; B 100 100 200 50; B 100 100 125 200; E";
    assert!(rt; is_not_refined(rt.alloc(), layout));
}

/// Four boxes in a square, with both diagonals: two of six clashes are broken however they are coloured.
#[test]
fn a_square_costs_two_clashes(rt: HostRuntime) {
    let head = b"(dpl 2);\n(layer M);\n(space 100);\n(overlap 20);\n(stitch 1);\n(conflict 10);\n\
      (pieces 4);\n(fragments 4);\n(bonds 0);\n(stitches 0);\n(clashes 6);\n(excess 2);\n\
      (cost 20);\n";
    assert!(rt; begins_with(refined_text(rt.alloc(), SQUARE), head));
}
