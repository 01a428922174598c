use crate::figures::{Corners, rects_of};
use dpl_cell::Rect;
use dpl_near::types::Shapes;
use dpl_near::{NoMemory, Surroundings, are_apart, shapes};
use std::alloc::Global;
use std::process::Abort;
use std::test::Fail;

/// The shapes of a few rectangles, `None` where two of them share a cell.
fn shapes_of(alloc: Global, rects: &[Rect]) -> Result<Option<Shapes>, NoMemory> {
    if rects.len() > 10 {
        return Ok(None);
    }
    if !are_apart(rects) {
        return Ok(None);
    }
    Ok(Some(shapes(alloc, rects)?))
}

/// Compares the pairs that share an edge, the shape of each rectangle and the number of shapes.
fn compare_shapes<R: Abort>(
    rt: &R,
    alloc: Global,
    all: &[Corners],
    joins: &[(u32, u32)],
    label: &[u32],
    count: u32,
) -> Result<(), Fail> {
    let rects = rects_of(alloc, all)?;
    let found = shapes_of(alloc, rects.as_slice())?.ok_or("not apart")?;
    assert_eq!(rt; found.joins.as_slice(), joins);
    assert_eq!(rt; found.label.as_slice(), label);
    assert_eq!(rt; found.count, count);
    Ok(())
}

#[test]
fn a_t(rt: HostRuntime) -> Result<(), Fail> {
    let rects = [(0, 0, 600, 200), (200, 200, 400, 600)];
    compare_shapes(&rt, rt.alloc(), &rects, &[(0, 1)], &[0, 0], 1)
}

#[test]
fn a_ring_with_a_box_inside(rt: HostRuntime) -> Result<(), Fail> {
    let rects = [
        (0, 0, 10, 3),
        (0, 3, 3, 7),
        (7, 3, 10, 7),
        (4, 4, 6, 6),
        (0, 7, 10, 10),
    ];
    let joins = [(0, 1), (0, 2), (1, 4), (2, 4)];
    compare_shapes(&rt, rt.alloc(), &rects, &joins, &[0, 0, 0, 1, 0], 2)
}

#[test]
fn corner_contact_joins_nothing(rt: HostRuntime) -> Result<(), Fail> {
    let rects = [(0, 0, 2, 2), (2, 2, 4, 4)];
    compare_shapes(&rt, rt.alloc(), &rects, &[], &[0, 1], 2)
}

/// Rectangles with the number of the shape of each.
#[derive(Clone, Copy)]
struct Placed<'a> {
    rects: &'a [Corners],
    shape: &'a [u32],
}

/// The rectangles near one of them, at a reach of 200 or at a shorter one, in order.
fn around(alloc: Global, placed: &Placed<'_>, i: u32, reach: u64) -> Result<Vec<u32>, Fail> {
    let rects = rects_of(alloc, placed.rects)?;
    if rects.len() > 10 {
        return Err("too many")?;
    }
    if placed.shape.len() != rects.len() {
        return Err("not a shape for each")?;
    }
    if i as usize >= rects.len() {
        return Err("no such rectangle")?;
    }
    if reach > 200 {
        return Err("no such reach")?;
    }
    let finder = Surroundings::new(alloc, rects.as_slice(), placed.shape, 200)?;
    let mut near = if reach == 200 {
        finder.around(alloc, i)?
    } else {
        finder.around_within(alloc, i, reach)?
    };
    near.sort_unstable();
    Ok(near)
}

/// Compares the rectangles near one of them.
fn compare_around<R: Abort>(
    rt: &R,
    alloc: Global,
    placed: &Placed<'_>,
    i: u32,
    reach: u64,
    wanted: &[u32],
) -> Result<(), Fail> {
    let near = around(alloc, placed, i, reach)?;
    assert_eq!(rt; near.as_slice(), wanted);
    Ok(())
}

/// Whether so few rectangles are near one of them.
fn are_few(alloc: Global, placed: &Placed<'_>, i: u32, most: usize) -> Result<bool, Fail> {
    let rects = rects_of(alloc, placed.rects)?;
    if rects.len() > 10 {
        return Err("too many")?;
    }
    if placed.shape.len() != rects.len() {
        return Err("not a shape for each")?;
    }
    if i as usize >= rects.len() {
        return Err("no such rectangle")?;
    }
    let finder = Surroundings::new(alloc, rects.as_slice(), placed.shape, 200)?;
    Ok(finder.few_around(alloc, i, most)?.is_some())
}

#[test]
fn the_boundary_of_the_reach(rt: HostRuntime) -> Result<(), Fail> {
    let placed = Placed {
        rects: &[
            (0, 0, 200, 200),
            (400, 0, 600, 200),
            (-399, 0, -199, 200),
            (320, 360, 520, 560),
            (320, -359, 520, -159),
            (200, 200, 210, 210),
        ],
        shape: &[0, 1, 2, 3, 4, 5],
    };
    compare_around(&rt, rt.alloc(), &placed, 0, 200, &[2, 4, 5])?;
    compare_around(&rt, rt.alloc(), &placed, 2, 200, &[0])
}

/// Number 1 touches number 0, number 2 is near it and of its shape, number 3 near and of another one, number 4 far.
#[test]
fn around_a_rectangle(rt: HostRuntime) -> Result<(), Fail> {
    let placed = Placed {
        rects: &[
            (0, 0, 200, 200),
            (200, 0, 400, 200),
            (0, 300, 200, 500),
            (-150, 0, -100, 200),
            (-900, 0, -800, 200),
        ],
        shape: &[0, 0, 0, 1, 2],
    };
    compare_around(&rt, rt.alloc(), &placed, 0, 200, &[1, 3])?;
    compare_around(&rt, rt.alloc(), &placed, 3, 200, &[0, 2])?;
    compare_around(&rt, rt.alloc(), &placed, 0, 50, &[1])?;
    assert!(rt; !are_few(rt.alloc(), &placed, 0, 2)?);
    assert!(rt; are_few(rt.alloc(), &placed, 0, 3)?);
    Ok(())
}

fn is_apart(alloc: Global, all: &[Corners]) -> Result<bool, Fail> {
    let rects = rects_of(alloc, all)?;
    Ok(are_apart(rects.as_slice()))
}

#[test]
fn overlapping_boxes_are_not_apart(rt: HostRuntime) -> Result<(), Fail> {
    assert!(rt; !is_apart(rt.alloc(), &[(0, 0, 9, 3), (3, 0, 6, 9)])?);
    Ok(())
}
