// How many cells rectangles and masks have.
ghost use Rattle.std.specs.Prelude.{◌≡◌, ◌+◌, ◌*◌, ◌<◌, ◌≤◌, ◌^◌, ℕ, ℤ, pos, neg_ℤ, ◌<ℤ◌, ◌≤ℤ◌, ◌-ℤ◌, false, true, length, map};
ghost use Rattle.std.specs.Int.RustNames.{unsigned_abs};
ghost use Rattle.dpl_limits.specs.Limits.{most_coordinate};
ghost use Rattle.dpl_cell.specs.Places.{corners_of};
ghost use Rattle.dpl_sign.specs.Colourings.{colour_of};
ghost use Rattle.dpl_cuts.specs.Fragments.{CameFromCut};
ghost use Rattle.dpl_good.specs.MaskRects.{mask_of};
ghost use Rattle.dpl_balance.specs.Areas as spec;
ghost use Rattle.dpl_balance.specs.Cells.{HoldCell, HasCells};

use crate::types::Areas;
use dpl_cell::Rect;
use dpl_cuts::types::{Cut, Fragments};
use dpl_good::colour_at;

/// How many columns or rows go from `from` to `to`.
fn extent(from: i64, to: i64) -> u64
    requires some { from <ℤ to }
    requires low { neg_ℤ (pos most_coordinate) ≤ℤ from }
    requires high { to ≤ℤ pos most_coordinate }
    ensures extent { result ≡ unsigned_abs (to -ℤ from) }
    ensures most { result ≤ 2 ^ 31 }
{
    (to - from) as u64
}

/// How many cells a rectangle has.
pub fn area(rect: &Rect) -> u128
    ensures area { result ≡ spec.area_of (corners_of rect.now) }
    ensures most { result ≤ 2 ^ 62 }
{
    let width = extent(rect.x1, rect.x2);
    let height = extent(rect.y1, rect.y2);
    u128::from(width * height)
}

/// How many cells the fragment with this number has.
pub fn area_at(rects: &[Rect], v: usize) -> u128
    requires { v < length rects.now }
    ensures area { result ≡ spec.area_at rects.now v }
    ensures most { result ≤ 2 ^ 62 }
{
    area(&rects[v])
}

/// The colour of the fragment with this number.
pub fn colour(colours: &[bool], v: usize) -> bool
    ensures { result ≡ colour_of colours.now v }
{
    v < colours.len() && colours[v]
}

/// How many cells the fragments on one mask have.
fn fragments_area(rects: &[Rect], colours: &[bool], on_b: bool) -> u128
    ensures area { result ≡ spec.fragments_area rects.now spec.all_fragments on_b colours.now }
    ensures most { result ≤ length rects.now * 2 ^ 62 }
{
    let mut found = 0;
    for v in 0..rects.len() {
        if colour(colours, v) == on_b {
            found += area_at(rects, v);
        }
    }
    found
}

/// Half of the zone at a cut, where the stitch there is broken.
fn half_zone(cut: &Cut, colours: &[bool]) -> u128
    ensures area { result ≡ spec.half_zone spec.all_fragments colours.now cut.now }
    ensures most { result ≤ 2 ^ 62 }
{
    if colour_at(colours, cut.a) != colour_at(colours, cut.b) {
        area(&cut.zone) / 2
    } else {
        0
    }
}

/// How many cells each mask has in the zones of broken stitches besides its own fragments.
fn zones_area(cuts: &[Cut], colours: &[bool]) -> u128
    ensures area { result ≡ spec.zones_area cuts.now spec.all_fragments colours.now }
    ensures most { result ≤ length cuts.now * 2 ^ 62 }
{
    let mut found = 0;
    for cut in cuts {
        found += half_zone(cut, colours);
    }
    found
}

/// How many cells the two masks of a colouring hold: those of their fragments, and half of the zone of each broken
/// stitch. Where the fragments came from tiles, these are the numbers of the cells that lie in the masks' rectangles.
pub fn areas(fragments: &Fragments, colours: &[bool]) -> Areas
    requires one { length colours.now ≡ length fragments.now.rects }
    ensures cells_a { (space : ℕ) → CameFromCut space fragments.now →
        HasCells (HoldCell (map corners_of (mask_of false fragments.now colours.now))) result.a }
    ensures cells_b { (space : ℕ) → CameFromCut space fragments.now →
        HasCells (HoldCell (map corners_of (mask_of true fragments.now colours.now))) result.b }
    ensures a { result.a ≡ spec.mask_area fragments.now false colours.now }
    ensures b { result.b ≡ spec.mask_area fragments.now true colours.now }
{
    let rects = fragments.rects.as_slice();
    let zones = zones_area(fragments.cuts.as_slice(), colours);
    Areas {
        a: fragments_area(rects, colours, false) + zones,
        b: fragments_area(rects, colours, true) + zones,
    }
}
