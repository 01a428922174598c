// How far figures reach.
ghost use Rattle.std.specs.Prelude.{◌≡◌, map};
ghost use Rattle.dpl_cif.specs.Drawn as drawings;
ghost use Rattle.dpl_cif.specs.Drawn.{drawn, corner_place};

use dpl_calls::figure::{Corner, Figure};
use dpl_rules::figures::Extent;

fn place_reach(x: i128, y: i128) -> u128
    ensures { result ≡ drawings.place_reach (x, y) }
{
    x.unsigned_abs().max(y.unsigned_abs())
}

fn extent_reach(e: &Extent) -> u128
    ensures { result ≡ drawings.outline_reach (drawn (Figure.Rectangle e.now)) }
{
    place_reach(e.x1, e.y1).max(place_reach(e.x2, e.y2))
}

fn corners_reach(corners: &[Corner]) -> u128
    ensures { result ≡ drawings.places_reach (map corner_place corners.now) }
{
    let mut most = 0u128;
    for corner in corners {
        most = most.max(place_reach(corner.x, corner.y));
    }
    most
}

fn figure_reach(figure: &Figure) -> u128
    ensures { result ≡ drawings.outline_reach (drawn figure.now) }
{
    match figure {
        Figure::Rectangle(e) => extent_reach(e),
        Figure::Polygon(corners) => corners_reach(corners.as_slice()),
    }
}

/// The greatest magnitude of the corners of all figures.
pub fn reach(figures: &[Figure]) -> u128
    ensures { result ≡ drawings.reach (map drawn figures.now) }
{
    let mut most = 0u128;
    for figure in figures {
        most = most.max(figure_reach(figure));
    }
    most
}
