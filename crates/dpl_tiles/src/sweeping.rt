// A sweep that touches only the stacks near the columns that change.
ghost use Rattle.std.specs.Prelude.{◌≡◌, ◌⊎◌, true, ℤ, ◌-ℤ◌, ◌<ℤ◌, ◌≤ℤ◌, ◌<◌, pos, length, All, AllPairs, Any, IfOk, IfSome, OnOk, filter, []};
ghost use Rattle.std.specs.List.{AllZip};
ghost use Rattle.dpl_limits.specs.Limits.{most_coordinate};
ghost use Rattle.dpl_cell.specs.Tiles.{IsRun};
ghost use Rattle.dpl_tiles.specs.Bands.{IsBand, IsOver, cells_in};
ghost use Rattle.dpl_stacks.specs.Stacks.{IsLeftOf};
ghost use Rattle.dpl_tiles.specs.Stretches.{IsFramed};
ghost use Rattle.dpl_tiles.specs.Corners.{AreCorners};
ghost use Rattle.dpl_tiles.specs.Stacks.{ending};
ghost use Rattle.dpl_cell.specs.Stretches.{is_in_stretches};
ghost use Rattle.dpl_tiles.specs.Sweeps.{HasReached};
ghost use Rattle.dpl_tiles.specs.Clusters.{AreChanges, HasPassed};
ghost use Rattle.dpl_tiles.specs.Windows.{AddsClosed, AreNearRuns, IsClosed, IsContinued, IsFar, IsStill, is_near};

use crate::band::Band;
use crate::columns::{Columns, greater, lesser, row_within};
use crate::corners::{Corner, corners_at};
use crate::gathering::gather;
use crate::rows::push_polygons;
use crate::stacking::find;
use crate::still::{parts_beside, stack_across};
use crate::sweep::Sweep;
use dpl_cell::{Rect, Stretch};
use dpl_cover::{merged, sort};
use std::alloc::{AllocError, Global};

/// Goes on by one band: closes the stacks that end at its lowest row, and begins those that are new
/// there.
pub fn step(
    alloc: Global,
    sweep: &mut Sweep,
    band: &Band<'_>,
    corners: &[Corner],
) -> Result<(), AllocError>
    requires band { IsBand band.now }
    requires cornered { AreCorners band.now.prims.now corners.now }
    requires swept { HasReached (cells_in band.now) band.now.low sweep.old }
    ensures { OnOk result (HasReached (cells_in band.now) band.now.high sweep.new) }
{
    let row = corners_at(corners, band.low);
    let mut at = 0;
    'clusters: while at < row.len() {
        at = pass(alloc, sweep, band, row, at)?;
    }
    Ok(())
}

/// Passes a cluster of the corners of a band's lowest row, from one place on, and gives the place
/// behind it.
fn pass(
    alloc: Global,
    sweep: &mut Sweep,
    band: &Band<'_>,
    row: &[Corner],
    at: usize,
) -> Result<usize, AllocError>
    requires band { IsBand band.now }
    requires changes { AreChanges (cells_in band.now) band.now.low row.now }
    requires inside { at < length row.now }
    requires passed { HasPassed (cells_in band.now) band.now.low row.now at sweep.old }
    ensures further { IfOk result (λ to. at < to) }
    ensures passed { IfOk result (λ to.
        HasPassed (cells_in band.now) band.now.low row.now to sweep.new) }
{
    let cluster = gather(alloc, &mut sweep.stacks, row, at)?;
    let near = cluster.near.as_slice();
    let window = window_of(near, &cluster.change);
    let still = stack_across(near, &window);
    let runs = near_runs(alloc, band, &cluster.change, &window, still)?;
    push_closed(&mut sweep.ended, near, runs.as_slice(), band.low)?;
    let stacks = all_continued(alloc, near, runs.as_slice())?;
    sweep.stacks.left.extend_from_slice(stacks.as_slice())?;
    Ok(cluster.to)
}

/// The stacks of all runs.
fn all_continued(alloc: Global, near: &[Rect], runs: &[Rect]) -> Result<Vec<Rect>, AllocError>
    requires { AllPairs IsLeftOf near.now }
    ensures { IfOk result (λ v.
        AllZip (λ run r. IsContinued near.now run.y1 run r) runs.now v.items) }
{
    let mut stacks = Vec::new(alloc);
    for run in runs {
        stacks.push(continued(near, run))?;
    }
    Ok(stacks)
}

/// Columns that hold those that change and those of the stacks near them.
fn window_of(near: &[Rect], change: &Columns) -> Columns
    ensures left { result.left ≤ℤ change.now.left }
    ensures right { change.now.right ≤ℤ result.right }
    ensures holds { All (λ r. (result.left ≤ℤ r.x1) × (r.x2 ≤ℤ result.right)) near.now }
    ensures first { (result.left ≡ change.now.left) ⊎ Any (λ r. r.x1 ≡ result.left) near.now }
    ensures last { (result.right ≡ change.now.right) ⊎ Any (λ r. r.x2 ≡ result.right) near.now }
{
    let mut columns = *change;
    for r in near {
        columns = with_stack(&columns, r);
    }
    columns
}

fn with_stack(columns: &Columns, r: &Rect) -> Columns
    ensures left { result.left ≤ℤ columns.now.left }
    ensures right { columns.now.right ≤ℤ result.right }
    ensures own_left { result.left ≤ℤ r.now.x1 }
    ensures own_right { r.now.x2 ≤ℤ result.right }
    ensures first { (result.left ≡ columns.now.left) ⊎ (result.left ≡ r.now.x1) }
    ensures last { (result.right ≡ columns.now.right) ⊎ (result.right ≡ r.now.x2) }
{
    let left = lesser(columns.left, r.x1);
    let right = greater(columns.right, r.x2);
    Columns { left, right }
}

/// The runs of a band that are not far from the columns that change, each in all its rows. The
/// window may lie in a stack that does not change elsewhere.
fn near_runs(
    alloc: Global,
    band: &Band<'_>,
    change: &Columns,
    window: &Columns,
    still: Option<Stretch>,
) -> Result<Vec<Rect>, AllocError>
    requires band { IsBand band.now }
    requires inside { (x1 x2 : ℤ) → IsRun (cells_in band.now) x1 x2 band.now.low →
        ¬ IsFar change.now.left change.now.right x1 x2 →
        (window.now.left ≤ℤ x1) × (x2 ≤ℤ window.now.right) }
    requires framed { IsFramed (cells_in band.now) band.now.low window.now.left window.now.right }
    requires still { IfSome still (IsStill (cells_in band.now) band.now.low change.now.left
        change.now.right window.now.left window.now.right) }
    ensures runs { IfOk result (λ v.
        AreNearRuns (cells_in band.now) band.now.low change.now.left change.now.right v.items) }
    ensures bottom { IfOk result (λ v. All (λ r. r.y1 ≡ band.now.low) v.items) }
{
    let mut parts = parts_near(alloc, band, change, window, still)?;
    sort(&mut parts);
    let stretches = merged(alloc, parts.as_slice())?;
    let runs = raised_near(alloc, stretches.as_slice(), change, band)?;
    Ok(runs)
}

/// The stretches that are not far from some columns, each in all rows of a band.
fn raised_near(
    alloc: Global,
    stretches: &[Stretch],
    change: &Columns,
    band: &Band<'_>,
) -> Result<Vec<Rect>, AllocError>
    requires { IsBand band.now }
    ensures { IfOk result (λ v. AllZip (IsOver band.now.low band.now.high)
        (filter (is_near change.now.left change.now.right) stretches.now) v.items) }
{
    let mut runs = Vec::new(alloc);
    for s in stretches {
        if is_near_to(s, change) {
            runs.push(piece_over(s, band))?;
        }
    }
    Ok(runs)
}

/// A stretch in all rows of a band.
fn piece_over(s: &Stretch, band: &Band<'_>) -> Rect
    requires { IsBand band.now }
    ensures { IsOver band.now.low band.now.high s.now result }
{
    Rect {
        x1: s.from,
        y1: band.low,
        x2: s.to,
        y2: band.high,
    }
}

/// Whether a stretch is not far from some columns.
fn is_near_to(s: &Stretch, change: &Columns) -> bool
    ensures { result ≡ is_near change.now.left change.now.right s.now }
{
    change.left <= s.to && s.from <= change.right
}

/// Cells of a band's lowest row in parts: all of those in the window and right beside it, and
/// perhaps others. Where the window lies in a stack that does not change elsewhere, and there are no
/// polygons, only what changes is looked at.
fn parts_near(
    alloc: Global,
    band: &Band<'_>,
    change: &Columns,
    window: &Columns,
    still: Option<Stretch>,
) -> Result<Vec<Stretch>, AllocError>
    requires band { IsBand band.now }
    requires framed { IsFramed (cells_in band.now) band.now.low window.now.left window.now.right }
    requires still { IfSome still (IsStill (cells_in band.now) band.now.low change.now.left
        change.now.right window.now.left window.now.right) }
    ensures sound { IfOk result (λ v. (x : ℤ) → is_in_stretches v.items x ≡ true →
        cells_in band.now x band.now.low ≡ true) }
    ensures full { IfOk result (λ v. (x : ℤ) → (window.now.left -ℤ pos 1) ≤ℤ x →
        x ≤ℤ window.now.right → cells_in band.now x band.now.low ≡ true →
        is_in_stretches v.items x ≡ true) }
{
    match still {
        None => parts_within(alloc, band, window),
        Some(stack) => {
            if band.finder.sides.is_empty() {
                parts_beside(alloc, band, change, &stack)
            } else {
                parts_within(alloc, band, window)
            }
        }
    }
}

/// Cells of a band's lowest row in parts: all of those in the window and right beside it, and
/// perhaps others.
fn parts_within(
    alloc: Global,
    band: &Band<'_>,
    window: &Columns,
) -> Result<Vec<Stretch>, AllocError>
    requires band { IsBand band.now }
    requires framed { IsFramed (cells_in band.now) band.now.low window.now.left window.now.right }
    ensures sound { IfOk result (λ v. (x : ℤ) → is_in_stretches v.items x ≡ true →
        cells_in band.now x band.now.low ≡ true) }
    ensures full { IfOk result (λ v. (x : ℤ) → (window.now.left -ℤ pos 1) ≤ℤ x →
        x ≤ℤ window.now.right → cells_in band.now x band.now.low ≡ true →
        is_in_stretches v.items x ≡ true) }
{
    let finder = band.finder;
    let mut parts = finder.cover.stretches(alloc, window.left, window.right)?;
    let found = finder
        .polygons
        .meeting(alloc, &row_within(window, band.low))?;
    push_polygons(
        alloc,
        &mut parts,
        finder.sides.as_slice(),
        found.as_slice(),
        window,
        band.low,
    )?;
    Ok(parts)
}

/// Adds the stacks that do not go on in the runs, closed at row `top`.
fn push_closed(
    ended: &mut Vec<Rect>,
    near: &[Rect],
    runs: &[Rect],
    top: i64,
) -> Result<(), AllocError>
    requires ordered { AllPairs IsLeftOf runs.now }
    requires below { All (λ r. r.y1 <ℤ top) near.now }
    requires range { top ≤ℤ pos most_coordinate }
    ensures { OnOk result (AddsClosed top (ending runs.now near.now) ended.old.items
        ended.new.items) }
{
    for stack in near {
        if find(runs, stack).is_none() {
            ended.push(closed(stack, top))?;
        }
    }
    Ok(())
}

/// A stack, closed at row `top`.
fn closed(stack: &Rect, top: i64) -> Rect
    requires below { stack.now.y1 <ℤ top }
    requires range { top ≤ℤ pos most_coordinate }
    ensures { IsClosed top stack.now result }
{
    Rect {
        x1: stack.x1,
        y1: stack.y1,
        x2: stack.x2,
        y2: top,
    }
}

/// The stack of a run: the one near that goes on with it, or a new one.
fn continued(near: &[Rect], run: &Rect) -> Rect
    requires { AllPairs IsLeftOf near.now }
    ensures { IsContinued near.now run.now.y1 run.now result }
{
    match find(near, run) {
        None => *run,
        Some(k) => near[k],
    }
}

/// Adds all stacks, closed at row `top`.
pub fn close_all(ended: &mut Vec<Rect>, held: &[Rect], top: i64) -> Result<(), AllocError>
    requires below { All (λ r. r.y1 <ℤ top) held.now }
    requires range { top ≤ℤ pos most_coordinate }
    ensures { OnOk result (AddsClosed top (ending [] held.now) ended.old.items ended.new.items) }
{
    push_closed(ended, held, &[], top)
}
