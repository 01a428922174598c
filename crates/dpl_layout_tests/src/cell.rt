use crate::figures::{Corners, FRAME, prims_of, rect_of};
use dpl_cell::{Prim, are_close, gap2, is_held, touch};
use std::process::Abort;
use std::test::Fail;

/// A square of 100 hundredths of a micron with its middle here, in hundredths.
fn square(x: i32, y: i32) -> Corners {
    let (x, y) = (i64::from(x) * 2, i64::from(y) * 2);
    (x - 100, y - 100, x + 100, y + 100)
}

fn gap_of(first: Corners, second: Corners) -> Option<u64> {
    let (a, b) = (rect_of(first)?, rect_of(second)?);
    Some(gap2(&a, &b))
}

/// Whether two boxes are closer than one micron.
fn is_close(first: Corners, second: Corners) -> Option<bool> {
    let (a, b) = (rect_of(first)?, rect_of(second)?);
    Some(are_close(&a, &b, 200))
}

fn do_touch(first: Corners, second: Corners) -> Option<bool> {
    let (a, b) = (rect_of(first)?, rect_of(second)?);
    Some(touch(&a, &b))
}

#[test]
fn boundary_of_the_spacing(rt: HostRuntime) {
    let first = square(50, 50);
    assert_eq!(rt; is_close(first, square(200, 50)), Some(true));
    assert_eq!(rt; is_close(first, square(250, 50)), Some(false));
}

#[test]
fn gap_of_corners(rt: HostRuntime) {
    let first = square(50, 50);
    let (far, near) = (square(210, 230), square(210, 229));
    assert_eq!(rt; gap_of(first, far), Some(40_000));
    assert_eq!(rt; gap_of(first, near), Some(39_364));
    assert_eq!(rt; is_close(first, far), Some(false));
    assert_eq!(rt; is_close(first, near), Some(true));
}

#[test]
fn corner_contact(rt: HostRuntime) {
    let first = square(50, 50);
    assert_eq!(rt; gap_of(first, square(150, 150)), Some(0));
    assert_eq!(rt; do_touch(first, square(150, 150)), Some(false));
    assert_eq!(rt; do_touch(first, square(150, 149)), Some(true));
    assert_eq!(rt; do_touch(first, square(149, 149)), Some(true));
}

#[test]
fn foot_and_stem_of_a_t(rt: HostRuntime) {
    let (foot, stem) = ((0, 0, 600, 200), (200, 200, 400, 600));
    assert_eq!(rt; do_touch(foot, stem), Some(true));
}

/// Compares whether primitives hold some cells.
fn compare_held<R: Abort>(rt: &R, prims: &[Prim], wanted: &[(i64, i64, bool)]) {
    for (x, y, held) in wanted {
        assert_eq!(rt; is_held(prims, *x, *y), *held, "{x} {y}");
    }
}

#[test]
fn frame_with_a_hole(rt: HostRuntime) -> Result<(), Fail> {
    let cells = [
        (1, 1, true),
        (3, 3, false),
        (6, 6, false),
        (7, 6, true),
        (9, 9, true),
        (10, 9, false),
        (-1, 9, false),
    ];
    let frame = prims_of(rt.alloc(), &[], &[&FRAME])?;
    compare_held(&rt, frame.as_slice(), &cells);
    Ok(())
}

/// What two boxes both hold is held, and a box ends before its right and its upper side.
#[test]
fn overlapping_boxes(rt: HostRuntime) -> Result<(), Fail> {
    let cells = [
        (0, 0, true),
        (3, 3, true),
        (5, 5, true),
        (4, 1, false),
        (1, 4, false),
        (6, 5, false),
        (-1, 0, false),
    ];
    let two = prims_of(rt.alloc(), &[(0, 0, 4, 4), (2, 2, 6, 6)], &[])?;
    compare_held(&rt, two.as_slice(), &cells);
    Ok(())
}
