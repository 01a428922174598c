// The cells of a polygon in one row: they lie between its sides, taken in pairs.
ghost use Rattle.std.specs.Prelude.{◌≡◌, OnOk, ◌==◌, ◌%◌, length, All};
ghost use Rattle.dpl_cell.specs.Ranges.{IsInRange};
ghost use Rattle.dpl_list.specs.Order.{Ascends};
ghost use Rattle.dpl_tiles.specs.Stretches.{AddsPlaces, AddsWithin, IsFramed};
ghost use Rattle.dpl_tiles.specs.Sides.{at_or_left, is_between};

use crate::columns::Columns;
use crate::sides::Sides;
use dpl_cell::Stretch;
use std::alloc::{AllocError, Global};

/// Adds the cells of a polygon in a window of a row: those between its sides, taken in pairs from the left.
pub fn push_polygon(
    alloc: Global,
    parts: &mut Vec<Stretch>,
    sides: &Sides,
    window: &Columns,
    y: i64,
) -> Result<(), AllocError>
    requires { IsFramed (is_between sides.now) y window.now.left window.now.right }
    ensures { OnOk result (AddsWithin (is_between sides.now) y window.now.left window.now.right
        parts.old.items parts.new.items) }
{
    let mut columns = sides.crossings(alloc, window, y)?;
    columns.sort_unstable();
    push_pairs(parts, columns.as_slice())
}

/// Adds the places between sides, taken in pairs.
fn push_pairs(parts: &mut Vec<Stretch>, sides: &[i64]) -> Result<(), AllocError>
    requires sorted { Ascends (λ z. z) sides.now }
    requires even { length sides.now % 2 ≡ 0 }
    requires range { All IsInRange sides.now }
    ensures { OnOk result (AddsPlaces (λ x. at_or_left x sides.now % 2
        == 1) parts.old.items parts.new.items) }
{
    let mut rest = sides;
    while let [from, to, others @ ..] = rest {
        if *from < *to {
            parts.push(Stretch::new(*from, *to))?;
        }
        rest = others;
    }
    Ok(())
}
