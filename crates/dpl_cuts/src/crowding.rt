// Tiles with many others around them, most of which need not be looked at.
ghost use Rattle.std.specs.Prelude.{◌≡◌, true, ℤ, ◌<◌, ◌≤◌, ◌≤ℤ◌, length, IfOk, OnOk};
ghost use Rattle.dpl_limits.specs.declared.TheConstants.{MOST_REACH};
ghost use Rattle.dpl_cell.specs.Cells.{IsWithin};
ghost use Rattle.dpl_cell.specs.Stretches.{AreSeparate, is_in_stretches};
ghost use Rattle.dpl_cuts.specs.Positions.{first_of, last_of, layer_of, rect_at};
ghost use Rattle.dpl_cuts.specs.Blocks.{AddsShut, AreShut, AreShutSoFar, MayBeKept};
ghost use Rattle.dpl_cuts.specs.Stretches.{is_in_option, IsPartOf, Marks};
ghost use Rattle.dpl_cuts.specs.Tilings.{IsAroundWithin, IsTiling, kept_of, surroundings_of, tiles_of};
ghost use Rattle.dpl_cuts.specs.Cuts.{AreCutPlaces};

use crate::blocking::blocks;
use crate::freeing::free_stretches;
use crate::placing::cut_places;
use crate::positions::{lane_of, lies_along_x, part_of};
use crate::shadowing::clipped;
use crate::tiling::Tiling;
use dpl_cell::{Rect, Stretch};
use dpl_near::Surroundings;
use std::alloc::{AllocError, Global};

/// Of a tile with more around it than so many only those are looked at that may block what others leave free.
const FEW: usize = 64;

/// So many of the tiles that may block a position are looked at first, and one more.
const SOME: usize = 4;

/// At most so often.
const MOST_TURNS: usize = 64;

/// Where the tile `i` is cut, ascending. The kept rectangles that share cells with it have these numbers.
pub fn cuts_of<'a>(
    alloc: Global,
    tiling: &Tiling<'a>,
    finder: &Surroundings<'a>,
    kept: &[usize],
    i: usize,
) -> Result<Vec<i64>, AllocError>
    requires tiling { IsTiling tiling.now }
    requires within { i < length tiling.now.tiles.now }
    requires finder { finder.now ≡ surroundings_of tiling.now }
    requires kept { MayBeKept (kept_of tiling.now) (rect_at (tiles_of tiling.now) i) kept.now }
    ensures { IfOk result (λ v. AreCutPlaces (layer_of (tiles_of tiling.now)) (kept_of tiling.now)
        tiling.now.space tiling.now.over (rect_at (tiles_of tiling.now) i) v.items) }
{
    match finder.few_around(alloc, i as u32, FEW)? {
        Some(near) => {
            let near = near.as_slice();
            let shut = blocks(alloc, tiling, near, i)?;
            cut_places(alloc, tiling, near, shut, kept, i)
        }
        None => {
            let near = finder.around_within(alloc, i as u32, 1)?;
            let near = near.as_slice();
            let shut = shut_beside(alloc, tiling, finder, near, i)?;
            cut_places(alloc, tiling, near, shut, kept, i)
        }
    }
}

/// The positions of the tile `i` that any tiles block; those that it touches have these numbers. Those within a small reach
/// are asked first, and then within four times the reach those that may block what is free so far: few of all in most cases.
fn shut_beside<'a>(
    alloc: Global,
    tiling: &Tiling<'a>,
    finder: &Surroundings<'a>,
    near: &[u32],
    i: usize,
) -> Result<Vec<Stretch>, AllocError>
    requires tiling { IsTiling tiling.now }
    requires within { i < length tiling.now.tiles.now }
    requires finder { finder.now ≡ surroundings_of tiling.now }
    requires near { IsAroundWithin tiling.now i near.now }
    ensures { IfOk result (λ v. AreShut (tiles_of tiling.now) tiling.now.label.now tiling.now.space i
        v.items) }
{
    let touched = blocks(alloc, tiling, near, i)?;
    let mut shut = shut_along(alloc, tiling, finder, touched, i)?;
    let mut reach = 1;
    'wider: while reach < tiling.space {
        shut = shut_within(alloc, tiling, finder, shut, reach, i)?;
        reach *= 4;
    }
    shut_within(alloc, tiling, finder, shut, tiling.space, i)
}

/// Adds to the blocked positions of the tile `i` those that a few tiles block: from the first position on some are asked
/// that may block it, and then what follows behind all that they block. Only where very much stands around the tiles.
fn shut_along<'a>(
    alloc: Global,
    tiling: &Tiling<'a>,
    finder: &Surroundings<'a>,
    shut: Vec<Stretch>,
    i: usize,
) -> Result<Vec<Stretch>, AllocError>
    requires tiling { IsTiling tiling.now }
    requires within { i < length tiling.now.tiles.now }
    requires finder { finder.now ≡ surroundings_of tiling.now }
    requires shut { AreShutSoFar (tiles_of tiling.now) tiling.now.label.now tiling.now.space i shut.items }
    ensures { IfOk result (λ v. AreShutSoFar (tiles_of tiling.now) tiling.now.label.now
        tiling.now.space i v.items) }
{
    if !finder.is_dense() {
        return Ok(shut);
    }
    let tiles = tiling.tiles;
    let lane = lane_of(&tiles[i]);
    let mut shut = shut;
    let mut at = lane.from;
    for _turn in 0..MOST_TURNS {
        match clipped(&lane, at, at.saturating_add(1)) {
            None => return Ok(shut),
            Some(place) => {
                at = push_some_at(alloc, tiling, finder, &mut shut, &place, i)?;
            }
        }
    }
    Ok(shut)
}

/// Adds to the blocked positions of the tile `i` those that some tiles block which may block these, and gives where to
/// ask next.
fn push_some_at<'a>(
    alloc: Global,
    tiling: &Tiling<'a>,
    finder: &Surroundings<'a>,
    shut: &mut Vec<Stretch>,
    place: &Stretch,
    i: usize,
) -> Result<i64, AllocError>
    requires tiling { IsTiling tiling.now }
    requires within { i < length tiling.now.tiles.now }
    requires finder { finder.now ≡ surroundings_of tiling.now }
    requires shut { AreShutSoFar (tiles_of tiling.now) tiling.now.label.now tiling.now.space i shut.old.items }
    requires low { first_of (rect_at (tiles_of tiling.now) i) ≤ℤ place.now.from }
    requires high { place.now.to ≤ℤ last_of (rect_at (tiles_of tiling.now) i) }
    ensures { OnOk result (AreShutSoFar (tiles_of tiling.now) tiling.now.label.now
        tiling.now.space i shut.new.items) }
{
    let tiles = tiling.tiles;
    let tile = &tiles[i];
    let own = tiling.label[i];
    let part = part_of(tile, place.from, place.to);
    let (columns, rows) = window_of(tile, tiling.space);
    let near = finder.some_beside(alloc, &part, own, columns, rows, SOME)?;
    let found = blocks(alloc, tiling, near.as_slice(), i)?;
    let next = behind(found.as_slice(), place.from, step_of(tile, tiling.space));
    shut.extend_from_slice(found.as_slice())?;
    Ok(next)
}

/// Within how many columns and rows of a position of a tile is looked: along the tile within fewer.
fn window_of(tile: &Rect, space: u64) -> (u64, u64)
    ensures columns { result.0 ≤ space }
    ensures rows { result.1 ≤ space }
{
    if lies_along_x(tile) {
        (space / 8, space)
    } else {
        (space, space / 8)
    }
}

/// How many positions of a tile are passed where none of some tiles block the first.
fn step_of(tile: &Rect, space: u64) -> i64
    requires { space ≤ MOST_REACH }
{
    let lane = lane_of(tile);
    lane.to
        .saturating_sub(lane.from)
        .wrapping_div(16)
        .saturating_add(space as i64 / 8 + 1)
}

/// The first position behind those stretches that hold one, or behind so many others where none does.
fn behind(stretches: &[Stretch], at: i64, step: i64) -> i64 {
    let mut next = at;
    for s in stretches {
        if s.from <= at {
            next = next.max(s.to);
        }
    }
    if next == at {
        at.saturating_add(step)
    } else {
        next
    }
}

/// Adds to the blocked positions of the tile `i` those that tiles within a reach of the others block.
fn shut_within<'a>(
    alloc: Global,
    tiling: &Tiling<'a>,
    finder: &Surroundings<'a>,
    shut: Vec<Stretch>,
    reach: u64,
    i: usize,
) -> Result<Vec<Stretch>, AllocError>
    requires tiling { IsTiling tiling.now }
    requires within { i < length tiling.now.tiles.now }
    requires finder { finder.now ≡ surroundings_of tiling.now }
    requires shut { AreShutSoFar (tiles_of tiling.now) tiling.now.label.now tiling.now.space i shut.items }
    requires shorter { reach ≤ tiling.now.space }
    ensures shut { IfOk result (λ v. AreShutSoFar (tiles_of tiling.now) tiling.now.label.now
        tiling.now.space i v.items) }
    ensures all { reach ≡ tiling.now.space → IfOk result (λ v. AreShut (tiles_of tiling.now)
        tiling.now.label.now tiling.now.space i v.items) }
{
    let tiles = tiling.tiles;
    let lane = lane_of(&tiles[i]);
    let mut sorted = shut;
    sorted.sort_unstable_by_key(|s| s.from);
    let free = free_stretches(alloc, &lane, sorted.as_slice())?;
    let mut wider = free_stretches(alloc, &lane, free.as_slice())?;
    push_beside(alloc, tiling, finder, &mut wider, free.as_slice(), reach, i)?;
    Ok(wider)
}

/// Adds to the blocked positions of the tile `i` those that tiles within a reach of these stretches block. Stretches with
/// less than four times the spacing between them are asked for at once.
fn push_beside<'a>(
    alloc: Global,
    tiling: &Tiling<'a>,
    finder: &Surroundings<'a>,
    shut: &mut Vec<Stretch>,
    free: &[Stretch],
    reach: u64,
    i: usize,
) -> Result<(), AllocError>
    requires tiling { IsTiling tiling.now }
    requires within { i < length tiling.now.tiles.now }
    requires finder { finder.now ≡ surroundings_of tiling.now }
    requires shut { AreShutSoFar (tiles_of tiling.now) tiling.now.label.now tiling.now.space i shut.old.items }
    requires shorter { reach ≤ tiling.now.space }
    requires separate { AreSeparate free.now }
    ensures { OnOk result (AddsShut (tiles_of tiling.now) tiling.now.label.now tiling.now.space i
        reach free.now shut.old.items shut.new.items) }
{
    let mut rest = free;
    'groups: while rest.len() > 0 {
        let (group, others) = rest.split_at(count_together(rest, tiling.space));
        push_beside_group(alloc, tiling, finder, shut, group, reach, i)?;
        rest = others;
    }
    Ok(())
}

/// How many stretches in order lie so near one another that they are asked for at once.
fn count_together(stretches: &[Stretch], space: u64) -> usize
    requires some { 0 < length stretches.now }
    requires near { space ≤ MOST_REACH }
    ensures some { 0 < result }
    ensures within { result ≤ length stretches.now }
{
    let gap = 4 * space as i64;
    let mut count = 1;
    'near: while count < stretches.len() {
        if stretches[count].from.wrapping_sub(stretches[count - 1].to) >= gap {
            return count;
        }
        count += 1;
    }
    count
}

/// The same for stretches that are asked for at once.
fn push_beside_group<'a>(
    alloc: Global,
    tiling: &Tiling<'a>,
    finder: &Surroundings<'a>,
    shut: &mut Vec<Stretch>,
    group: &[Stretch],
    reach: u64,
    i: usize,
) -> Result<(), AllocError>
    requires tiling { IsTiling tiling.now }
    requires within { i < length tiling.now.tiles.now }
    requires finder { finder.now ≡ surroundings_of tiling.now }
    requires shut { AreShutSoFar (tiles_of tiling.now) tiling.now.label.now tiling.now.space i shut.old.items }
    requires shorter { reach ≤ tiling.now.space }
    requires separate { AreSeparate group.now }
    ensures { OnOk result (AddsShut (tiles_of tiling.now) tiling.now.label.now tiling.now.space i
        reach group.now shut.old.items shut.new.items) }
{
    let tiles = tiling.tiles;
    let tile = &tiles[i];
    let own = tiling.label[i];
    match span_of(&lane_of(tile), group) {
        None => Ok(()),
        Some(span) => {
            let part = part_of(tile, span.from, span.to);
            let near = finder.others_beside(alloc, &part, own, reach)?;
            let found = blocks(alloc, tiling, near.as_slice(), i)?;
            shut.extend_from_slice(found.as_slice())?;
            Ok(())
        }
    }
}

/// The stretch of a lane that holds stretches in order.
fn span_of(lane: &Stretch, stretches: &[Stretch]) -> Option<Stretch>
    requires { AreSeparate stretches.now }
    ensures part { IsPartOf lane.now result }
    ensures all { (p : ℤ) → IsWithin lane.now.from lane.now.to p → is_in_stretches stretches.now p ≡ true →
        is_in_option result p ≡ true }
{
    let count = stretches.len();
    if count == 0 {
        return None;
    }
    part_between(lane, &stretches[0], &stretches[count - 1])
}

/// The part of a lane from the start of one stretch to the end of another.
fn part_between(lane: &Stretch, first: &Stretch, last: &Stretch) -> Option<Stretch>
    ensures { Marks (IsWithin first.now.from last.now.to) lane.now.from lane.now.to result }
{
    clipped(lane, first.from, last.to)
}
