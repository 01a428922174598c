// Borders of rectangles, and which lie along one another.
ghost use Rattle.std.specs.Prelude.{◌≡◌, ◌↔◌, true, false, ℕ, ◌<◌, ◌≤◌, ◌<ℤ◌, IsTrue, IfOk, OnOk};
ghost use Rattle.std.specs.Prelude.{length, All, AllPairs, map, slice_index_or};
ghost use Rattle.std.specs.List.Sorted.{IsPermutation};
ghost use Rattle.dpl_limits.specs.declared.TheConstants.{MOST_TILES};
ghost use Rattle.dpl_cell.specs.Places.{corners_of};
ghost use Rattle.dpl_cell.specs.Cells.{AreApart};
ghost use Rattle.dpl_near.specs.Borders.{first_border, last_border, is_before, pair_of};
ghost use Rattle.dpl_near.specs.Borders.{AddsAlong, AreAlong, AreBorders, AreInOrder, IsOnLineOf};
ghost use Rattle.dpl_near.specs.declared.borders.Border.{Border};

use crate::seeking::place_past;
use dpl_cell::Rect;
use std::alloc::{AllocError as NoMemory, Global};

/// A border of the rectangle with this number, in grid units: it runs along `line` from one place to
/// another, which is left out.
#[derive(Clone, Copy, Debug)]
pub struct Border {
    pub line: i64,
    pub from: i64,
    pub to: i64,
    pub number: u32,
}

/// The left border of a rectangle, or its lower one.
pub fn first_border(upright: bool, rect: &Rect, number: u32) -> Border
    ensures { result ≡ first_border upright (corners_of rect.now) number }
{
    if upright {
        Border {
            line: rect.x1,
            from: rect.y1,
            to: rect.y2,
            number,
        }
    } else {
        Border {
            line: rect.y1,
            from: rect.x1,
            to: rect.x2,
            number,
        }
    }
}

/// The right border of a rectangle, or its upper one.
pub fn last_border(upright: bool, rect: &Rect, number: u32) -> Border
    ensures { result ≡ last_border upright (corners_of rect.now) number }
{
    let first = first_border(upright, rect, number);
    if upright {
        Border {
            line: rect.x2,
            ..first
        }
    } else {
        Border {
            line: rect.y2,
            ..first
        }
    }
}

/// The left borders of all rectangles, or the lower ones, line by line.
pub fn first_borders(alloc: Global, upright: bool, rects: &[Rect]) -> Result<Vec<Border>, NoMemory>
    requires apart { AllPairs AreApart (map corners_of rects.now) }
    requires few { length rects.now ≤ MOST_TILES }
    ensures borders { IfOk result (λ v. AreBorders upright (map corners_of rects.now) v.items) }
    ensures order { IfOk result (λ v. AreInOrder v.items) }
{
    let mut borders = Vec::with_capacity(alloc, rects.len())?;
    for i in 0..rects.len() {
        borders.push(first_border(upright, &rects[i], i as u32))?;
    }
    put_in_order(&mut borders);
    Ok(borders)
}

fn put_in_order(borders: &mut Vec<Border>)
    requires long { All (λ b. b.from <ℤ b.to) borders.old.items }
    requires apart { AllPairs (λ a b. ¬ AreAlong a b) borders.old.items }
    ensures same { IsPermutation borders.old.items borders.new.items }
    ensures order { AreInOrder borders.new.items }
{
    borders.sort_unstable_by_key(|b| (b.line, b.from));
}

/// Adds the pairs of a border and those of its line that lie along it, by their numbers, and gives the place of the
/// first that may. It is looked for from a place on that may be near it.
pub fn push_along(
    pairs: &mut Vec<(u32, u32)>,
    border: &Border,
    borders: &[Border],
    ends: &[i64],
    near: usize,
) -> Result<usize, NoMemory>
    requires order { AreInOrder borders.now }
    requires line { All (IsOnLineOf border.now) borders.now }
    requires ends { ends.now ≡ map (λ b. b.to) borders.now }
    ensures { OnOk result (AddsAlong border.now borders.now pairs.old.items pairs.new.items) }
{
    let start = first_along(border, borders, ends, near);
    for k in start..borders.len() {
        let other = &borders[k];
        if !are_along(border, other) {
            return Ok(start);
        }
        pairs.push(pair_of(border, other))?;
    }
    Ok(start)
}

fn pair_of(a: &Border, b: &Border) -> (u32, u32)
    ensures { result ≡ pair_of a.now b.now }
{
    (a.number.min(b.number), a.number.max(b.number))
}

/// The place of the first border of a line that does not end before another of this line begins.
fn first_along(border: &Border, borders: &[Border], ends: &[i64], near: usize) -> usize
    requires order { AreInOrder borders.now }
    requires line { All (IsOnLineOf border.now) borders.now }
    requires ends { ends.now ≡ map (λ b. b.to) borders.now }
    ensures before { (k : ℕ) (d : Border) → k < result →
        is_before (slice_index_or borders.now k d) border.now ≡ true }
    ensures behind { (k : ℕ) (d : Border) → result ≤ k → k < length borders.now →
        is_before (slice_index_or borders.now k d) border.now ≡ false }
    ensures within { result ≤ length borders.now }
{
    place_past(ends, border.from, near)
}

fn are_along(a: &Border, b: &Border) -> bool
    ensures { IsTrue result ↔ AreAlong a.now b.now }
{
    a.line == b.line && a.from < b.to && b.from < a.to
}
