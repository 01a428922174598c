use dpl_ext::{MemShelf, MemSink, MemSource};
use dpl_rules::What;
use dpl_run::{Status, run};
use std::alloc::Global;
use std::test::Fail;

#[derive(Drop)]
pub struct Ended {
    pub status: Status,
    pub out: MemSink,
    pub err: MemSink,
}

/// Devices in memory: the layout, the report or the script under the name `r`, the numbers of the calls that fail, and how many
/// bytes the output takes at once.
#[derive(Drop)]
pub struct World {
    layout: Vec<u8>,
    report: Vec<u8>,
    reads: Vec<u64>,
    opens: Vec<u64>,
    writes: Vec<u64>,
    lines: Vec<u64>,
    piece: usize,
}

pub fn devices(alloc: Global, layout: &[u8], report: &[u8]) -> Result<World, Fail> {
    Ok(World {
        layout: Vec::from_slice(alloc, layout)?,
        report: Vec::from_slice(alloc, report)?,
        reads: Vec::new(alloc),
        opens: Vec::new(alloc),
        writes: Vec::new(alloc),
        lines: Vec::new(alloc),
        piece: 40,
    })
}

/// Runs a command line over devices in memory.
pub fn run_over(alloc: Global, line: &str, world: World) -> Result<Ended, Fail> {
    let mut words = Vec::new(alloc);
    for word in line.split_whitespace() {
        words.push(String::from_str(alloc, word)?)?;
    }
    let mut files = Vec::new(alloc);
    files.push((String::from_str(alloc, "r")?, world.report))?;
    let mut layout = MemSource::new(world.layout, 10, world.reads);
    let mut second = MemShelf::new(alloc, files, 1000, world.opens);
    let mut out = MemSink::new(alloc, 100_000, world.piece.max(1), world.writes)?;
    let mut err = MemSink::new(alloc, 1000, 40, world.lines)?;
    let status = run(
        alloc,
        words.as_slice(),
        &mut layout,
        &mut second,
        &mut out,
        &mut err,
    );
    Ok(Ended { status, out, err })
}

pub const SPLIT: &str = "split --layer M --space 100 --overlap 20";

pub const CHECK: &str = "check --layer M --space 100 --overlap 20 --report r";

pub const CROSS: &str = "cross --layer M --space 100 --overlap 20";

const BALANCE: &str = "balance --layer M --space 100 --overlap 20";

const REFINE: &str = "refine --layer M --space 100 --overlap 20";

pub const TWO: &[u8] = b"L M; B 100 100 50 50; B 100 100 200 50; E";

pub const TRIANGLE: &[u8] = b"L M; B 100 100 50 50; B 100 100 200 50; B 100 100 125 200; E";

/// Six boxes, of which `split` breaks a stitch and a clash that is set aside, and `refine` one clash.
const TANGLE: &[u8] =
    b"L M; B 200 40 120 0; B 80 40 440 40; B 40 80 120 160; B 200 40 360 80; B 80 80 360 0; B 40 40 240 120; E";

/// Four boxes in a square, each two a clash: the links over the corners cross.
const SQUARE: &[u8] =
    b"L M; B 100 100 50 50; B 100 100 200 50; B 100 100 50 200; B 100 100 200 200; E";

/// Three boxes side by side, each two a clash. The middle one begins higher, so it is the last fragment, and the outer
/// ones are 0 and 1: their link, edge 0, leads through the middle one, but beside the
/// other links.
const ROW: &[u8] = b"L M; B 20 100 10 50; B 20 60 60 70; B 20 100 110 50; E";

const NOTHING: &[u8] =
    b"(dpl 2);\n(layer M);\n(space 100);\n(overlap 20);\n(stitch 1);\n(conflict 10);\n(pieces 0);\n(fragments 0);\n(bonds 0);\n(stitches 0);\n(clashes 0);\n(excess 0);\n(cost 0);\n(bound 0);\n(masks );\n(corner 10);\nDS 1 1 4;\nL MA;\nL MB;\nDF;\nC 1;\nE\n";

#[test]
fn nothing_on_two_masks(rt: HostRuntime) -> Result<(), Fail> {
    let ended = run_over(rt.alloc(), SPLIT, devices(rt.alloc(), b"E", b"")?)?;
    assert_eq!(rt; ended.status, Status::Done);
    assert_eq!(rt; ended.out.bytes(), NOTHING);
    assert_eq!(rt; ended.err.bytes().len(), 0);
    Ok(())
}

#[test]
fn statuses_and_lines(rt: HostRuntime) -> Result<(), Fail> {
    for (line, layout, code, told) in [
        ("", "E", 2u8, "dpl: usage 1\n"),
        ("split --space 0 --overlap 20", "E", 2, "dpl: usage 2\n"),
        (
            "split --layer m --space 1 --overlap 20",
            "E",
            2,
            "dpl: usage 3\n",
        ),
        (SPLIT, "L M; Q 1; E", 3, "dpl: layout 1 at command 2\n"),
        (CROSS, "L M; Q 1; E", 3, "dpl: layout 1 at command 2\n"),
        (BALANCE, "L M; Q 1; E", 3, "dpl: layout 1 at command 2\n"),
        ("cross --layer M --space 1", "E", 2, "dpl: usage 2\n"),
        (CHECK, "L M; B 1 1 0 0", 3, "dpl: layout 14 at command 2\n"),
        (
            SPLIT,
            "L M; B 2 2 536870912 0; E",
            4,
            "dpl: limit 4 count 1073741826\n",
        ),
        (CHECK, "E", 1, "dpl: rejected 1 place 1 found 0 wanted 0\n"),
    ] {
        let ended = run_over(
            rt.alloc(),
            line,
            devices(rt.alloc(), layout.as_bytes(), b"")?,
        )?;
        assert_eq!(rt; ended.status.code(), code, "{layout}");
        assert_eq!(rt; ended.err.bytes(), told.as_bytes(), "{layout}");
        assert_eq!(rt; ended.out.bytes().len(), 0);
    }
    Ok(())
}

/// The split of the odd triangle is read again, costs one conflict, and shows twice that by its cycles.
#[test]
fn the_odd_triangle_and_its_check(rt: HostRuntime) -> Result<(), Fail> {
    let made = run_over(rt.alloc(), SPLIT, devices(rt.alloc(), TRIANGLE, b"")?)?;
    assert_eq!(rt; made.status, Status::Done);
    let read = run_over(
        rt.alloc(),
        CHECK,
        devices(rt.alloc(), TRIANGLE, made.out.bytes())?,
    )?;
    assert_eq!(rt; read.status, Status::Done);
    assert_eq!(rt; read.out.bytes(), b"yes cost 10 bound 20\n".as_slice());
    let other = run_over(rt.alloc(), CHECK, devices(rt.alloc(), TRIANGLE, NOTHING)?)?;
    assert_eq!(rt; other.status.code(), 1u8);
    assert_eq!(rt;
        other.err.bytes(),
        b"dpl: rejected 3 place 7 found 0 wanted 3\n".as_slice()
    );
    Ok(())
}

/// What `cross` tells, by hand.
#[test]
fn crossings_and_a_bar(rt: HostRuntime) -> Result<(), Fail> {
    for (layout, told) in [
        (b"E".as_slice(), "excess 0 none\n"),
        (TRIANGLE, "excess 0 none\n"),
        (ROW, "excess 0 fragment 0 2\n"),
        (SQUARE, "excess 2 link 2 3\nbar 4 face 6 3 0 walk 0 2\n"),
    ] {
        let ended = run_over(rt.alloc(), CROSS, devices(rt.alloc(), layout, b"")?)?;
        assert_eq!(rt; ended.status, Status::Done);
        assert_eq!(rt; ended.out.bytes(), told.as_bytes());
        assert_eq!(rt; ended.err.bytes().len(), 0);
    }
    Ok(())
}

/// Two boxes far from each other lie on one mask by `split`, and each on a mask of its own by `balance`.
#[test]
fn masks_of_the_same_area(rt: HostRuntime) -> Result<(), Fail> {
    let layout = b"L M; B 100 100 50 50; B 100 100 5000 50; E";
    let split = run_over(rt.alloc(), SPLIT, devices(rt.alloc(), layout, b"")?)?;
    let balanced = run_over(rt.alloc(), BALANCE, devices(rt.alloc(), layout, b"")?)?;
    assert_eq!(rt; balanced.status, Status::Done);
    assert!(rt; split.out.bytes() != balanced.out.bytes());
    for ended in [split, balanced] {
        let read = run_over(
            rt.alloc(),
            CHECK,
            devices(rt.alloc(), layout, ended.out.bytes())?,
        )?;
        assert_eq!(rt; read.out.bytes(), b"yes cost 0 bound 0\n".as_slice());
    }
    Ok(())
}

/// Where an edge is set aside, `refine` finds masks that cost less.
#[test]
fn fewer_conflicts(rt: HostRuntime) -> Result<(), Fail> {
    for (words, told) in [(SPLIT, "yes cost 11 "), (REFINE, "yes cost 10 ")] {
        let ended = run_over(rt.alloc(), words, devices(rt.alloc(), TANGLE, b"")?)?;
        assert_eq!(rt; ended.status, Status::Done);
        let read = run_over(
            rt.alloc(),
            CHECK,
            devices(rt.alloc(), TANGLE, ended.out.bytes())?,
        )?;
        assert!(rt; read.out.bytes().starts_with(told.as_bytes()));
    }
    Ok(())
}

/// Where nothing is set aside, `refine` writes what `split` writes.
#[test]
fn a_plane_layout_stays(rt: HostRuntime) -> Result<(), Fail> {
    let split = run_over(rt.alloc(), SPLIT, devices(rt.alloc(), TRIANGLE, b"")?)?;
    let refined = run_over(rt.alloc(), REFINE, devices(rt.alloc(), TRIANGLE, b"")?)?;
    assert_eq!(rt; refined.status, Status::Done);
    assert_eq!(rt; refined.out.bytes(), split.out.bytes());
    Ok(())
}

#[test]
fn a_made_layout(rt: HostRuntime) -> Result<(), Fail> {
    let ended = run_over(
        rt.alloc(),
        "load --start 7 --rows 1 --columns 1",
        devices(rt.alloc(), b"", b"")?,
    )?;
    assert_eq!(rt; ended.status, Status::Done);
    let want = b"fragments 1 edges 0 cost 0 bound 0 aside 0\n";
    assert_eq!(rt; ended.out.bytes(), want.as_slice());
    Ok(())
}

#[test]
fn failing_devices(rt: HostRuntime) -> Result<(), Fail> {
    let mut given = devices(rt.alloc(), b"L M; B 1 1 0 0; E", b"")?;
    given.reads.push(1)?;
    let read = run_over(rt.alloc(), SPLIT, given)?;
    assert_eq!(rt; read.status, Status::ReadFault);
    assert_eq!(rt; read.out.bytes().len(), 0);
    let mut given = devices(rt.alloc(), b"E", b"")?;
    given.opens.push(0)?;
    let opened = run_over(rt.alloc(), CHECK, given)?;
    assert_eq!(rt; opened.status, Status::ReadFault);
    let unknown = run_over(
        rt.alloc(),
        "check --layer M --space 100 --overlap 20 --report s",
        devices(rt.alloc(), b"E", b"")?,
    )?;
    assert_eq!(rt; unknown.status, Status::ReadFault);
    let mut given = devices(rt.alloc(), b"E", b"")?;
    given.writes.push(1)?;
    let written = run_over(rt.alloc(), SPLIT, given)?;
    assert_eq!(rt; written.status, Status::WriteFault);
    assert_eq!(rt; written.out.bytes(), &NOTHING[..40]);
    assert_eq!(rt; written.err.bytes(), b"dpl: write fault\n".as_slice());
    Ok(())
}

/// Each read of the layout fails in turn, and the output stays empty.
#[test]
fn each_read_fails_in_turn(rt: HostRuntime) -> Result<(), Fail> {
    for call in 0..6u64 {
        let mut given = devices(rt.alloc(), TWO, b"")?;
        given.reads.push(call)?;
        let ended = run_over(rt.alloc(), SPLIT, given)?;
        assert_eq!(rt; ended.status, Status::ReadFault);
        assert_eq!(rt; ended.out.bytes().len(), 0);
        assert_eq!(rt; ended.err.bytes(), b"dpl: read fault\n".as_slice());
    }
    Ok(())
}

/// Each write of one byte fails in turn, and the output has the bytes before it.
#[test]
fn each_write_fails_in_turn(rt: HostRuntime) -> Result<(), Fail> {
    let mut given = devices(rt.alloc(), TWO, b"")?;
    given.piece = 1;
    let whole = run_over(rt.alloc(), SPLIT, given)?;
    assert_eq!(rt; whole.status, Status::Done);
    let text = whole.out.bytes();
    for call in 0..text.len() {
        let mut given = devices(rt.alloc(), TWO, b"")?;
        given.piece = 1;
        given.writes.push(call as u64)?;
        let ended = run_over(rt.alloc(), SPLIT, given)?;
        assert_eq!(rt; ended.status, Status::WriteFault);
        assert_eq!(rt; ended.out.bytes(), &text[..call]);
    }
    Ok(())
}

/// Opening the report, reading it and finding its end fail in turn.
#[test]
fn each_call_of_the_shelf_fails_in_turn(rt: HostRuntime) -> Result<(), Fail> {
    let made = run_over(rt.alloc(), SPLIT, devices(rt.alloc(), TRIANGLE, b"")?)?;
    for call in 0..3u64 {
        let mut given = devices(rt.alloc(), TRIANGLE, made.out.bytes())?;
        given.opens.push(call)?;
        let ended = run_over(rt.alloc(), CHECK, given)?;
        assert_eq!(rt; ended.status, Status::ReadFault);
        assert_eq!(rt; ended.out.bytes().len(), 0);
    }
    Ok(())
}

/// A refusal is the same where its line cannot be written.
#[test]
fn a_refusal_without_its_line(rt: HostRuntime) -> Result<(), Fail> {
    let layout = b"DS 1 1 3; L M; B 100 99 0 0; DF; C 1; E";
    let mut given = devices(rt.alloc(), layout, b"")?;
    for call in 0..100u64 {
        given.lines.push(call)?;
    }
    let ended = run_over(rt.alloc(), SPLIT, given)?;
    assert_eq!(rt;
        ended.status,
        Status::Layout {
            command: 3,
            what: What::OffGrid,
        }
    );
    assert_eq!(rt; ended.err.bytes().len(), 0);
    Ok(())
}
