use dpl_boxes::push_box;
use dpl_cell::Rect;
use std::alloc::Global;
use std::process::Abort;
use std::test::Fail;

/// Compares the line of a box with these corners.
fn compare<R: Abort>(
    rt: &R,
    alloc: Global,
    corners: (i64, i64, i64, i64),
    wanted: &[u8],
) -> Result<(), Fail> {
    let (x1, y1, x2, y2) = corners;
    let r = Rect::new(x1, y1, x2, y2).ok_or("a box")?;
    let mut out = Vec::new(alloc);
    push_box(&mut out, &r)?;
    assert!(rt; out.as_slice() == wanted);
    Ok(())
}

#[test]
fn a_box_in_quarters_of_a_hundredth(rt: HostRuntime) -> Result<(), Fail> {
    compare(&rt, rt.alloc(), (400, 0, 500, 200), b"B 200 400 900 200;\n")
}

#[test]
fn a_box_with_its_middle_at_the_origin(rt: HostRuntime) -> Result<(), Fail> {
    compare(&rt, rt.alloc(), (-25, -100, 25, 100), b"B 100 400 0 0;\n")
}

#[test]
fn a_box_with_a_middle_between_units(rt: HostRuntime) -> Result<(), Fail> {
    compare(&rt, rt.alloc(), (-3, -2, 0, 3), b"B 6 10 -3 1;\n")
}
