// Figures become the rectangles and polygons of a layout.
ghost use Rattle.std.specs.Prelude.{◌≡◌, ◌≤◌, map, All, IfOk, unsigned_abs};
ghost use Rattle.dpl_limits.specs.Limits.{most_coordinate};
ghost use Rattle.dpl_cell.specs.Places as places;
ghost use Rattle.dpl_cell.specs.Places.{corners_of};
ghost use Rattle.dpl_cell.specs.Outlines.{outline_of};
ghost use Rattle.dpl_calls.specs.Kept.{IsSound, HasLevelSides};
ghost use Rattle.dpl_cif.specs.Drawn.{drawn, corner_place, place_reach, places_reach, outline_reach, reach};

use dpl_calls::figure::{Corner, Figure};
use dpl_cell::{Layout, Point, Points, Prim, Rect};
use dpl_list::Items;
use dpl_rules::figures::Extent;
use std::alloc::{AllocError, Global};

fn narrow(z: i128) -> i64
    requires { unsigned_abs z ≤ most_coordinate }
    ensures { result ≡ z }
{
    z as i64
}

fn rect_of(e: &Extent) -> Rect
    requires sound { IsSound (Figure.Rectangle e.now) }
    requires near { outline_reach (drawn (Figure.Rectangle e.now)) ≤ most_coordinate }
    ensures { corners_of result ≡ record {
      x1 = e.now.x1;
      y1 = e.now.y1;
      x2 = e.now.x2;
      y2 =
          e.now.y2;
    } }
{
    match Rect::new(narrow(e.x1), narrow(e.y1), narrow(e.x2), narrow(e.y2)) {
        Some(rect) => rect,
        None => unreachable!(),
    }
}

fn point_of(corner: &Corner) -> Point
    requires { place_reach (corner_place corner.now) ≤ most_coordinate }
    ensures { places.place_of result ≡ corner_place corner.now }
{
    match Point::new(narrow(corner.x), narrow(corner.y)) {
        Some(point) => point,
        None => unreachable!(),
    }
}

fn points_of(alloc: Global, corners: &[Corner]) -> Result<Points, AllocError>
    requires sound { HasLevelSides corners.now }
    requires near { places_reach (map corner_place corners.now) ≤ most_coordinate }
    ensures { IfOk result (λ p. map places.place_of p ≡ map corner_place corners.now) }
{
    let mut points = Vec::new(alloc);
    for corner in corners {
        points.push(point_of(corner))?;
    }
    match Points::new(points) {
        Some(points) => Ok(points),
        None => unreachable!(),
    }
}

fn prim_of(alloc: Global, figure: &Figure) -> Result<Prim, AllocError>
    requires sound { IsSound figure.now }
    requires near { outline_reach (drawn figure.now) ≤ most_coordinate }
    ensures { IfOk result (λ p. outline_of p ≡ drawn figure.now) }
{
    match figure {
        Figure::Rectangle(e) => Ok(Prim::Box(rect_of(e))),
        Figure::Polygon(corners) => Ok(Prim::Poly(points_of(alloc, corners.as_slice())?)),
    }
}

/// The layout that these figures are. They are sound, and within the range of the layout's coordinates.
pub fn layout_of(alloc: Global, figures: &[Figure]) -> Result<Layout, AllocError>
    requires sound { All IsSound figures.now }
    requires near { reach (map drawn figures.now) ≤ most_coordinate }
    ensures { IfOk result (λ l. map outline_of l.prims ≡ map drawn figures.now) }
{
    let mut prims = Vec::new(alloc);
    for figure in figures {
        prims.push(prim_of(alloc, figure)?)?;
    }
    Ok(Layout {
        prims: Items::new(prims),
    })
}
