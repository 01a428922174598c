// The corners of boxes and wires, and what lies on the grid.
ghost use Rattle.std.specs.Prelude.{◌≡◌, ◌≤◌, ◌<◌, ◌^◌, ◌*◌, unsigned_abs, IfOk};
ghost use Rattle.std.specs.List.{list_all};
ghost use Rattle.std.specs.Int.{int_min, int_max};
ghost use Rattle.dpl_rules.specs.Figures as figures;
ghost use Rattle.dpl_rules.specs.Figures.{IsExtentNear, IsScale};

use crate::command::{BoxForm, Scale, Spot};

/// A rectangle between two corners, in grid units of half a hundredth of a micron.
#[derive(Clone, Copy, Debug, PartialEq, Eq)]
pub struct Extent {
    pub x1: i128,
    pub y1: i128,
    pub x2: i128,
    pub y2: i128,
}

/// Whether a distance is a whole number of grid units in this scale.
#[tactic(auto, unfolding(crate::specs::Figures::is_on_grid))]
fn is_on_grid(scale: Scale, z: i128) -> bool
    requires scale { IsScale scale }
    requires near { unsigned_abs z ≤ 2 ^ 66 }
    ensures { result ≡ figures.is_on_grid scale z }
{
    z * i128::from(scale.times) % i128::from(scale.over) == 0
}

/// That number of grid units, where it is whole.
#[tactic(auto, unfolding(crate::specs::Figures::scaled))]
pub fn scaled(scale: Scale, z: i128) -> i128
    requires scale { IsScale scale }
    requires near { unsigned_abs z ≤ 2 ^ 66 }
    ensures { result ≡ figures.scaled scale z }
{
    z * i128::from(scale.times) / i128::from(scale.over)
}

/// Hundredths in grid units.
#[tactic(auto, unfolding(crate::specs::Figures::double))]
pub fn double(z: i64) -> i128
    ensures value { result ≡ figures.double z }
    ensures near { unsigned_abs result ≤ 2 ^ 64 }
{
    2 * i128::from(z)
}

#[tactic(auto, unfolding(crate::specs::Figures::less, crate::specs::Figures::double))]
fn less(z: i64, by: u64) -> i128
    ensures value { result ≡ figures.less z by }
    ensures near { unsigned_abs result ≤ 2 ^ 66 }
{
    double(z) - i128::from(by)
}

#[tactic(auto, unfolding(crate::specs::Figures::more, crate::specs::Figures::double))]
fn more(z: i64, by: u64) -> i128
    ensures value { result ≡ figures.more z by }
    ensures near { unsigned_abs result ≤ 2 ^ 66 }
{
    double(z) + i128::from(by)
}

fn around(x: i64, across: u64, y: i64, along: u64) -> Extent
    ensures value { result ≡ figures.around x across y along }
    ensures near { IsExtentNear result }
{
    Extent {
        x1: less(x, across),
        y1: less(y, along),
        x2: more(x, across),
        y2: more(y, along),
    }
}

/// The corners of a box before its scale.
pub fn box_extent(b: &BoxForm) -> Extent
    ensures value { result ≡ figures.box_extent b.now }
    ensures near { IsExtentNear result }
{
    if b.direction.y.unsigned_abs() == 0 {
        around(b.centre.x, b.length, b.centre.y, b.width)
    } else {
        around(b.centre.x, b.width, b.centre.y, b.length)
    }
}

fn low(width: u64, a: i64, b: i64) -> i128
    ensures value { result ≡ figures.less (int_min a b) width }
    ensures near { unsigned_abs result ≤ 2 ^ 66 }
{
    less(a.min(b), width)
}

fn high(width: u64, a: i64, b: i64) -> i128
    ensures value { result ≡ figures.more (int_max a b) width }
    ensures near { unsigned_abs result ≤ 2 ^ 66 }
{
    more(a.max(b), width)
}

/// The corners of a wire's part between two points before its scale.
pub fn leg(width: u64, p: &Spot, q: &Spot) -> Extent
    ensures value { result ≡ figures.leg width p.now q.now }
    ensures near { IsExtentNear result }
{
    Extent {
        x1: low(width, p.x, q.x),
        y1: low(width, p.y, q.y),
        x2: high(width, p.x, q.x),
        y2: high(width, p.y, q.y),
    }
}

/// Whether the coordinates of a point, in hundredths of a micron before its scale, are whole grid
/// units after it.
pub fn is_spot_on_grid(scale: Scale, spot: &Spot) -> bool
    requires { IsScale scale }
    ensures { result ≡ figures.is_spot_on_grid scale spot.now }
{
    is_on_grid(scale, double(spot.x)) && is_on_grid(scale, double(spot.y))
}

/// Whether the corners of a rectangle, in grid units before its scale, are whole grid units after
/// it.
pub fn is_extent_on_grid(scale: Scale, e: Extent) -> bool
    requires scale { IsScale scale }
    requires near { IsExtentNear e }
    ensures { result ≡ figures.is_extent_on_grid scale e }
{
    is_on_grid(scale, e.x1)
        && is_on_grid(scale, e.y1)
        && is_on_grid(scale, e.x2)
        && is_on_grid(scale, e.y2)
}

fn is_slanted(p: &Spot, q: &Spot) -> bool
    ensures { result ≡ figures.is_slanted p.now q.now }
{
    p.x != q.x && p.y != q.y
}

/// Whether two points of an open path that follow one another differ in both coordinates.
pub fn slants(path: &[Spot]) -> bool
    ensures { result ≡ figures.slants path.now }
{
    let Some((first, rest)) = path.split_first() else {
        return false;
    };
    let mut before = first;
    for spot in rest {
        if is_slanted(before, spot) {
            return true;
        }
        before = spot;
    }
    false
}

/// Whether a direction lies along an axis.
pub fn is_straight(d: &Spot) -> bool
    ensures { result ≡ figures.is_straight d.now }
{
    let x = d.x.unsigned_abs() == 0;
    let y = d.y.unsigned_abs() == 0;
    !(x && y) && (x || y)
}

/// The same of a closed path.
pub fn slants_round(path: &[Spot]) -> bool
    ensures { result ≡ figures.slants_round path.now }
{
    let Some((first, rest)) = path.split_first() else {
        return false;
    };
    let mut before = first;
    for spot in rest {
        if is_slanted(before, spot) {
            return true;
        }
        before = spot;
    }
    is_slanted(before, first)
}

/// Whether all points of a path, in hundredths of a micron before their scale, are whole grid units
/// after it.
pub fn is_path_on_grid(scale: Scale, path: &[Spot]) -> bool
    requires { IsScale scale }
    ensures { result ≡ list_all (figures.is_spot_on_grid scale) path.now }
{
    for spot in path {
        if !is_spot_on_grid(scale, spot) {
            return false;
        }
    }
    true
}

/// Whether the corners of all parts of a wire lie on the grid.
pub fn is_wire_on_grid(scale: Scale, width: u64, path: &[Spot]) -> bool
    requires { IsScale scale }
    ensures { result ≡ list_all (figures.is_extent_on_grid scale) (figures.legs width path.now) }
{
    let Some((first, rest)) = path.split_first() else {
        return true;
    };
    if rest.is_empty() {
        return is_extent_on_grid(scale, leg(width, first, first));
    }
    let mut before = first;
    for spot in rest {
        if !is_extent_on_grid(scale, leg(width, before, spot)) {
            return false;
        }
        before = spot;
    }
    true
}
