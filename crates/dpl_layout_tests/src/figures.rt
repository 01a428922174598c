// Boxes and polygons by their corners.
use dpl_cell::{Point, Points, Prim, Rect};
use std::alloc::Global;
use std::test::Fail;

pub type Corners = (i64, i64, i64, i64);

/// A frame around a hole, with a slit from the hole to its left side.
pub const FRAME: [(i64, i64); 10] = [
    (0, 0),
    (10, 0),
    (10, 10),
    (0, 10),
    (0, 3),
    (3, 3),
    (3, 7),
    (7, 7),
    (7, 3),
    (0, 3),
];

pub fn rect_of(corners: Corners) -> Option<Rect> {
    let (x1, y1, x2, y2) = corners;
    Rect::new(x1, y1, x2, y2)
}

pub fn rects_of(alloc: Global, all: &[Corners]) -> Result<Vec<Rect>, Fail> {
    let mut rects = Vec::new(alloc);
    for corners in all {
        rects.push(rect_of(*corners).ok_or("out of range")?)?;
    }
    Ok(rects)
}

pub fn push_boxes(prims: &mut Vec<Prim>, all: &[Corners]) -> Result<(), Fail> {
    for corners in all {
        prims.push(Prim::Box(rect_of(*corners).ok_or("out of range")?))?;
    }
    Ok(())
}

fn points_of(alloc: Global, corners: &[(i64, i64)]) -> Result<Points, Fail> {
    let mut points = Vec::new(alloc);
    for (x, y) in corners {
        points.push(Point::new(*x, *y).ok_or("out of range")?)?;
    }
    Ok(Points::new(points).ok_or("slanted")?)
}

fn push_polygons(prims: &mut Vec<Prim>, alloc: Global, all: &[&[(i64, i64)]]) -> Result<(), Fail> {
    for corners in all {
        prims.push(Prim::Poly(points_of(alloc, corners)?))?;
    }
    Ok(())
}

/// The primitives of boxes and polygons.
pub fn prims_of(
    alloc: Global,
    boxes: &[Corners],
    polygons: &[&[(i64, i64)]],
) -> Result<Vec<Prim>, Fail> {
    let mut prims = Vec::new(alloc);
    push_boxes(&mut prims, boxes)?;
    push_polygons(&mut prims, alloc, polygons)?;
    Ok(prims)
}
