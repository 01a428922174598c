// Pairs of rectangles that share an edge.
ghost use Rattle.std.specs.Prelude.{◌↔◌, ℕ, ◌+◌, ◌<◌, ◌≤◌, true, false, IfOk, OnOk};
ghost use Rattle.std.specs.Prelude.{length, AllPairs, Contains, map};
ghost use Rattle.dpl_limits.specs.declared.TheConstants.{MOST_TILES};
ghost use Rattle.dpl_cell.specs.Places.{corners_of};
ghost use Rattle.dpl_cell.specs.Cells.{AreApart};
ghost use Rattle.dpl_near.specs.Borders.{AreBorders};
ghost use Rattle.dpl_near.specs.Joins.{AreJoins, HasJoinsOf, IsFirst};

use crate::borders::{first_borders, last_border};
use crate::lines::{BorderLines, Marks};
use dpl_cell::Rect;
use std::alloc::{AllocError as NoMemory, Global};

/// The pairs of rectangles that share an edge, of which no two share a cell.
pub fn joins(alloc: Global, rects: &[Rect]) -> Result<Vec<(u32, u32)>, NoMemory>
    requires apart { AllPairs AreApart (map corners_of rects.now) }
    requires few { length rects.now ≤ MOST_TILES }
    ensures { IfOk result (λ v. AreJoins (map corners_of rects.now) v.items) }
{
    let lower = first_lines(alloc, false, rects)?;
    let left = first_lines(alloc, true, rects)?;
    let mut found = Found {
        lower: lower.marks(alloc)?,
        left: left.marks(alloc)?,
    };
    let mut joins = Vec::with_capacity(alloc, rects.len())?;
    for i in 0..rects.len() {
        push_joins(&mut joins, rects, i, &lower, &left, &mut found)?;
    }
    put_in_order(&mut joins);
    Ok(joins)
}

/// The left borders of all rectangles, or the lower ones, with their lines.
fn first_lines(alloc: Global, upright: bool, rects: &[Rect]) -> Result<BorderLines, NoMemory>
    requires apart { AllPairs AreApart (map corners_of rects.now) }
    requires few { length rects.now ≤ MOST_TILES }
    ensures { IfOk result (AreBorders upright (map corners_of rects.now)) }
{
    let borders = first_borders(alloc, upright, rects)?;
    let lines = BorderLines::new(alloc, borders)?;
    Ok(lines)
}

/// Where the searches among lower borders ended, and those among left ones.
#[derive(Drop)]
struct Found {
    lower: Marks,
    left: Marks,
}

/// Adds the pairs of a rectangle and those that begin where it ends: at its right, and above it.
fn push_joins(
    joins: &mut Vec<(u32, u32)>,
    rects: &[Rect],
    i: usize,
    lower: &BorderLines,
    left: &BorderLines,
    found: &mut Found,
) -> Result<(), NoMemory>
    requires few { length rects.now ≤ MOST_TILES }
    requires within { i < length rects.now }
    requires lower { AreBorders false (map corners_of rects.now) lower.now }
    requires left { AreBorders true (map corners_of rects.now) left.now }
    requires joins { HasJoinsOf (map corners_of rects.now) i joins.old.items }
    ensures { OnOk result (HasJoinsOf (map corners_of rects.now) (i + 1) joins.new.items) }
{
    let rect = &rects[i];
    let right = last_border(true, rect, i as u32);
    left.push_along(&mut found.left, joins, &right)?;
    let upper = last_border(false, rect, i as u32);
    lower.push_along(&mut found.lower, joins, &upper)?;
    Ok(())
}

/// Puts pairs into ascending order, each once.
fn put_in_order(pairs: &mut Vec<(u32, u32)>)
    ensures ordered { AllPairs IsFirst pairs.new.items }
    ensures same { (p : ℕ × ℕ) → Contains pairs.new.items p ↔ Contains pairs.old.items p }
{
    pairs.sort_unstable();
    pairs.dedup();
}
