ghost use Rattle.std.specs.Prelude.{◌≡◌, map, IfOk};
ghost use Rattle.dpl_cell.specs.Places.{corners_of};
ghost use Rattle.dpl_parse.specs.Read.{plain_read};
ghost use Rattle.dpl_report.specs.Plain.{plain_report, plain_zone};
ghost use Rattle.dpl_report.specs.Valid.{IsReport};

use dpl_cell::Rect;
use dpl_form::first_line;
use dpl_list::Items;
use dpl_parse::{Boxes, Clashes, Cuts, Cycles, Edges, ReadReport, ReportError, parse};
use dpl_report::{Broken, NoMemory, Report, Zone, print};
use dpl_sign::{Cycle, Walk};
use std::alloc::Global;
use std::process::Abort;

const NOTHING: &[u8] =
    b"(dpl 1);\n(layer M);\n(space 100);\n(overlap 20);\n(stitch 1);\n(conflict 10);\n(pieces 0);\n(fragments 0);\n(bonds 0);\n(stitches 0);\n(clashes 0);\n(excess 0);\n(cost 0);\n(bound 0);\n(masks );\nDS 1 1 4;\nL MA;\nL MB;\nDF;\nC 1;\nE\n";

/// Three squares, each too close to the other two.
pub const TRIANGLE: &[u8] =
    b"(dpl 1);\n(layer M);\n(space 100);\n(overlap 20);\n(stitch 1);\n(conflict 10);\n(pieces 3);\n(fragments 3);\n(bonds 0);\n(stitches 0);\n(clashes 3);\n(excess 0);\n(cost 10);\n(bound 20);\n(masks AAB);\n(clash 0 0 1);\n(cycle 20 0 0 2 1);\nDS 1 1 4;\nL MA;\nB 400 400 200 200;\nB 400 400 800 200;\nL MB;\nB 400 400 500 800;\nDF;\nC 1;\nE\n";

/// Nothing in the second version.
const SECOND: &[u8] =
    b"(dpl 2);\n(layer M);\n(space 100);\n(overlap 20);\n(stitch 1);\n(conflict 10);\n(pieces 0);\n(fragments 0);\n(bonds 0);\n(stitches 0);\n(clashes 0);\n(excess 0);\n(cost 0);\n(bound 0);\n(masks );\n(corner 10);\nDS 1 1 4;\nL MA;\nL MB;\nDF;\nC 1;\nE\n";

/// The same with a keep layer.
const KEPT: &[u8] =
    b"(dpl 2);\n(layer M);\n(space 100);\n(overlap 20);\n(stitch 1);\n(conflict 10);\n(pieces 0);\n(fragments 0);\n(bonds 0);\n(stitches 0);\n(clashes 0);\n(excess 0);\n(cost 0);\n(bound 0);\n(masks );\n(corner 3);\n(keep K);\nDS 1 1 4;\nL MA;\nL MB;\nDF;\nC 1;\nE\n";

fn stored_edges(alloc: Global, edges: Edges<'_>) -> Result<Vec<u32>, NoMemory>
    ensures { IfOk result (λ v. v.items ≡ edges.entry) }
{
    let mut left = edges;
    let mut found = Vec::new(alloc);
    'edges: while let Some(edge) = left.next_edge() {
        found.push(edge)?;
    }
    Ok(found)
}

fn stored_cycles(alloc: Global, cycles: Cycles<'_>) -> Result<Vec<Cycle>, NoMemory>
    ensures { IfOk result (λ v. v.items ≡ cycles.entry) }
{
    let mut left = cycles;
    let mut found = Vec::new(alloc);
    'cycles: while let Some(cycle) = left.next_cycle() {
        let edges = Items::new(stored_edges(alloc, cycle.edges)?);
        let walk = Walk {
            start: cycle.start,
            edges,
        };
        found.push(Cycle {
            half: cycle.half,
            walk,
        })?;
    }
    Ok(found)
}

fn stored_cuts(alloc: Global, cuts: Cuts<'_>) -> Result<Vec<Zone>, NoMemory>
    ensures { IfOk result (λ v. map plain_zone v.items ≡ cuts.entry) }
{
    let mut left = cuts;
    let mut found = Vec::new(alloc);
    'cuts: while let Some(cut) = left.next_cut(alloc)? {
        found.push(cut)?;
    }
    Ok(found)
}

fn stored_clashes(alloc: Global, clashes: Clashes<'_>) -> Result<Vec<Broken>, NoMemory>
    ensures { IfOk result (λ v. v.items ≡ clashes.entry) }
{
    let mut left = clashes;
    let mut found = Vec::new(alloc);
    'clashes: while let Some(clash) = left.next_item(alloc)? {
        found.push(clash)?;
    }
    Ok(found)
}

fn stored_boxes(alloc: Global, boxes: Boxes<'_>) -> Result<Vec<Rect>, NoMemory>
    ensures { IfOk result (λ v. map corners_of v.items ≡ boxes.entry) }
{
    let mut left = boxes;
    let mut found = Vec::new(alloc);
    'boxes: while let Some(rect) = left.next_box(alloc)? {
        found.push(rect)?;
    }
    Ok(found)
}

/// A report with its lists stored.
fn stored(alloc: Global, report: ReadReport<'_>) -> Result<Report, NoMemory>
    ensures { IfOk result (λ r. plain_report r ≡ plain_read report.entry) }
{
    let colours = report.colours.colours(alloc)?;
    let cuts = stored_cuts(alloc, report.cuts)?;
    let clashes = stored_clashes(alloc, report.clashes)?;
    let cycles = stored_cycles(alloc, report.cycles)?;
    let on_a = stored_boxes(alloc, report.on_a)?;
    let on_b = stored_boxes(alloc, report.on_b)?;
    Ok(Report {
        params: report.params,
        counts: report.counts,
        cost: report.cost,
        bound: report.bound,
        colours: Items::new(colours),
        cuts: Items::new(cuts),
        clashes: Items::new(clashes),
        aside: report.aside,
        cycles: Items::new(cycles),
        on_a: Items::new(on_a),
        on_b: Items::new(on_b),
    })
}

/// The text of a report that was read.
fn written(alloc: Global, report: ReadReport<'_>) -> Result<Vec<u8>, NoMemory>
    requires { IsReport (plain_read report) }
{
    let report = stored(alloc, report)?;
    let text = print(alloc, &report)?;
    Ok(text)
}

/// Whether this is a report, and is written again as it was read.
fn is_written_again(alloc: Global, text: &[u8]) -> bool {
    if text.len() > 1000 {
        return false;
    }
    match parse(alloc, text) {
        Ok(report) => match written(alloc, report) {
            Ok(again) => again.as_slice() == text,
            Err(_) => false,
        },
        Err(_) => false,
    }
}

/// The first wrong line, 0 where there is none.
fn wrong_line(alloc: Global, text: &[u8]) -> Option<u64> {
    if text.len() > 1000 {
        return None;
    }
    match parse(alloc, text) {
        Ok(_) => Some(0),
        Err(ReportError::NotReport(line)) => Some(line),
        Err(ReportError::NoMemory) => None,
    }
}

/// A report with other text in place of one line.
pub fn with_line(
    alloc: Global,
    report: &[u8],
    number: usize,
    new: &[u8],
) -> Result<Vec<u8>, NoMemory> {
    let mut out = Vec::new(alloc);
    let mut rest = report;
    let mut at: usize = 1;
    'lines: while let Some((line, others)) = first_line(rest) {
        out.extend_from_slice(if at == number { new } else { line })?;
        at = at.wrapping_add(1);
        rest = others;
    }
    Ok(out)
}

/// The first wrong line of a report with other text in place of one line.
fn wrong_line_with(alloc: Global, report: &[u8], number: usize, new: &[u8]) -> Option<u64> {
    let text = with_line(alloc, report, number, new).ok()?;
    wrong_line(alloc, text.as_slice())
}

/// Whether a report with other text in place of one line is still one, and is written again as it was read.
fn is_written_again_with(alloc: Global, report: &[u8], number: usize, new: &[u8]) -> bool {
    match with_line(alloc, report, number, new) {
        Ok(text) => is_written_again(alloc, text.as_slice()),
        Err(_) => false,
    }
}

#[test]
fn reports_are_read_and_written_again(rt: HostRuntime) {
    for report in [NOTHING, TRIANGLE, SECOND, KEPT] {
        assert!(rt; is_written_again(rt.alloc(), report));
    }
}

#[test]
fn a_front_of_a_report_ends_too_early(rt: HostRuntime) {
    let mut line: u64 = 1;
    for (end, byte) in TRIANGLE.iter().enumerate() {
        assert_eq!(rt; wrong_line(rt.alloc(), &TRIANGLE[..end]), Some(line));
        if *byte == b'\n' {
            line = line.wrapping_add(1);
        }
    }
}

/// Compares the first wrong lines of a report with other texts in place of one line.
fn compare_wrong_lines<R: Abort>(
    rt: &R,
    alloc: Global,
    report: &[u8],
    number: usize,
    wanted: &[(&[u8], u64)],
) {
    for (new, line) in wanted {
        assert_eq!(rt; wrong_line_with(alloc, report, number, new), Some(*line));
    }
}

#[test]
fn the_first_wrong_line_is_named(rt: HostRuntime) {
    let spacing = [
        (b"(overlap 20);\n(space 100);\n".as_slice(), 3),
        (b"(space 0100);\n", 3),
        (b"(space 1000000000001);\n", 3),
    ];
    compare_wrong_lines(&rt, rt.alloc(), TRIANGLE, 3, &spacing);
    let masks = [(b"(masks AABB);\n".as_slice(), 15), (b"(masks AAb);\n", 15)];
    compare_wrong_lines(&rt, rt.alloc(), TRIANGLE, 15, &masks);
    let clash = [
        (b"(clash 1 0 2);\n(clash 0 0 1);\n".as_slice(), 17),
        (b"(clash 0 0 1);\n(clash 0 0 1);\n", 17),
    ];
    compare_wrong_lines(&rt, rt.alloc(), TRIANGLE, 16, &clash);
    let cycle = [
        (b"(cycle 0 0 0 2 1);\n".as_slice(), 17),
        (b"(cycle 20 0);\n", 17),
    ];
    compare_wrong_lines(&rt, rt.alloc(), TRIANGLE, 17, &cycle);
    let square = [(b"B 0 400 200 200;\n".as_slice(), 20)];
    compare_wrong_lines(&rt, rt.alloc(), TRIANGLE, 20, &square);
    let end = [(b"E".as_slice(), 26), (b"E\nE\n", 27)];
    compare_wrong_lines(&rt, rt.alloc(), TRIANGLE, 26, &end);
}

#[test]
fn the_first_wrong_line_of_a_second_version(rt: HostRuntime) {
    let version = [(b"(dpl 3);\n".as_slice(), 1), (b"(dpl 1);\n", 16)];
    compare_wrong_lines(&rt, rt.alloc(), KEPT, 1, &version);
    let masks = [(b"(masks );\n(keep K);\n".as_slice(), 16)];
    compare_wrong_lines(&rt, rt.alloc(), KEPT, 15, &masks);
    let corner = [
        (b"(corner 03);\n".as_slice(), 16),
        (b"(corner -3);\n", 16),
        (b"(corner 1000000000001);\n", 16),
        (b"", 16),
        (b"(keep K);\n(corner 3);\n", 16),
    ];
    compare_wrong_lines(&rt, rt.alloc(), KEPT, 16, &corner);
    let keep = [
        (b"(keep k);\n".as_slice(), 17),
        (b"(keep );\n", 17),
        (b"(keep K2345678901234567890123456789012);\n", 17),
        (b"(keep K);\n(keep K);\n", 18),
    ];
    compare_wrong_lines(&rt, rt.alloc(), KEPT, 17, &keep);
    let definition = [(b"(corner 3);\nDS 1 1 4;\n".as_slice(), 18)];
    compare_wrong_lines(&rt, rt.alloc(), KEPT, 18, &definition);
}

/// The corner weight is a number as the others, up to 10 ^ 12. The name of the keep layer has up to 31 bytes, and may
/// be that of the layer.
#[test]
fn corner_and_keep_lines(rt: HostRuntime) {
    for (number, new) in [
        (16, b"(corner 10);\n".as_slice()),
        (16, b"(corner 1);\n"),
        (16, b"(corner 1000000000000);\n"),
        (17, b"(keep M);\n"),
        (17, b"(keep K234567890123456789012345678901);\n"),
        (17, b""),
    ] {
        assert!(rt; is_written_again_with(rt.alloc(), KEPT, number, new));
    }
}

/// A report of the first version has neither line.
#[test]
fn the_first_version_ends_with_the_masks(rt: HostRuntime) {
    let behind = [
        (b"(masks );\n(corner 10);\n".as_slice(), 16),
        (b"(masks );\n(keep K);\n", 16),
    ];
    compare_wrong_lines(&rt, rt.alloc(), NOTHING, 15, &behind);
}

/// Edges and fragments are numbers of 32 bits, zones lie within the coordinates of a layer and hold a cell, and other
/// numbers go up to 10 ^ 12.
#[test]
fn numbers_at_the_ends_of_their_ranges(rt: HostRuntime) {
    for (number, new) in [
        (13, b"(cost 1000000000000);\n".as_slice()),
        (16, b"(clash 4294967295 4294967295 4294967295);\n"),
        (16, b"(aside 0);\n(aside 4294967295);\n"),
        (16, b"(cut 1 0 2 -1073741824 -2 -1073741823 1073741824);\n"),
        (17, b"(cycle 1000000000000 4294967295 4294967295);\n"),
        (20, b"B 2 2 -2147483647 2147483647;\n"),
    ] {
        assert!(rt; is_written_again_with(rt.alloc(), TRIANGLE, number, new));
    }
    let cost = [
        (b"(cost 1000000000001);\n".as_slice(), 13),
        (b"(cost -1);\n", 13),
    ];
    compare_wrong_lines(&rt, rt.alloc(), TRIANGLE, 13, &cost);
    let edges = [
        (b"(clash 4294967296 0 1);\n".as_slice(), 16),
        (b"(clash 0 4294967296 1);\n", 16),
        (b"(clash 0 0 4294967296);\n", 16),
        (b"(clash 0 0 1);\n(cut 1 0 2 0 0 2 2);\n", 17),
        (b"(aside 4294967296);\n", 16),
        (b"(aside 1);\n(aside 1);\n", 17),
        (b"(cut 1 0 2 0 0 0 2);\n", 16),
        (b"(cut 1 0 2 0 2 2 2);\n", 16),
        (b"(cut 1 0 2 0 0 2 1073741825);\n", 16),
        (b"(cut 1 0 2 -1073741825 0 2 2);\n", 16),
        (b"(cut 1 0 2 -0 0 2 2);\n", 16),
    ];
    compare_wrong_lines(&rt, rt.alloc(), TRIANGLE, 16, &edges);
    let cycle = [
        (b"(cycle 1000000000001 0 0);\n".as_slice(), 17),
        (b"(cycle 1 4294967296 0);\n", 17),
        (b"(cycle 1 0 4294967296);\n", 17),
    ];
    compare_wrong_lines(&rt, rt.alloc(), TRIANGLE, 17, &cycle);
    let square = [
        (b"B 3 2 0 0;\n".as_slice(), 20),
        (b"B 2 2 2147483648 0;\n", 20),
        (b"B 4 4 1 0;\n", 20),
    ];
    compare_wrong_lines(&rt, rt.alloc(), TRIANGLE, 20, &square);
}
