// Rectangles of shapes: what is near of other shapes, and what touches.
ghost use Rattle.std.specs.Prelude.{◌≡◌, ℕ, ◌≤◌, ◌<◌, length, All, IfOk, OnOk, map};
ghost use Rattle.dpl_limits.specs.declared.TheConstants.{MOST_REACH, MOST_TILES};
ghost use Rattle.dpl_index.specs.Meetings.{Meets};
ghost use Rattle.dpl_cell.specs.Places.{Corners, corners_of};
ghost use Rattle.dpl_cell.specs.Cells.{IsIn};
ghost use Rattle.dpl_cell.specs.Gaps.{AreClose};
ghost use Rattle.dpl_near.specs.Around.{AreAround, MayBeAround};
ghost use Rattle.dpl_near.specs.Bounds.{bounds_of};
ghost use Rattle.dpl_near.specs.Near.{AddsNear};

use crate::bounds::{all_bounds, within_reach};
use crate::pairing::all_around;
use dpl_cell::{Rect, are_close};
use dpl_index::{Ask, Bounds, KindIndex};
use dpl_list::Grouped;
use std::alloc::{AllocError as NoMemory, Global};
use std::marker::Model;

/// Finds what stands around one of some rectangles, whose shapes are known. Of its own shape only what touches it is
/// found, so a large shape costs no more than its edges. What stands around each is found once and kept in rows, unless
/// that is very much: then it is looked for in the index at each call.
#[derive(Drop)]
pub struct Surroundings<'a> {
    rects: &'a [Rect],
    shape: &'a [u32],
    reach: u64,
    index: KindIndex,
    rows: Option<Grouped<u32>>,
}

impl<'a> Model for Surroundings<'a> {
    ghost use Rattle.std.specs.Prelude.{◌≡◌, ℕ, ◌≤◌, length, map, IfSome};
    ghost use Rattle.dpl_limits.specs.declared.TheConstants.{MOST_REACH, MOST_TILES};
    ghost use Rattle.dpl_cell.specs.Places.{corners_of};
    ghost use Rattle.dpl_near.specs.Around.{Shaped};
    ghost use Rattle.dpl_near.specs.Bounds.{bounds_of};
    ghost use Rattle.dpl_near.specs.Pairs.{AreRows};

    ghost Value = { Shaped };

    ghost view = { λ f. record {
      rects = map corners_of f.rects.now;
      shape = f.shape.now;
      reach = f.reach;
    } };

    ghost invariant = { λ f. record {
      few : length f.rects.now ≤ MOST_TILES;
      near : f.reach ≤ MOST_REACH;
      long : length f.shape.now ≡ length f.rects.now;
      bounds : f.index.kinded ≡ record {
        items = map (λ r. bounds_of (corners_of r)) f.rects.now;
        kinds = f.shape.now;
      };
      rows : IfSome f.rows (λ rows. AreRows (record {
        rects = map corners_of f.rects.now;
        shape = f.shape.now;
        reach = f.reach;
      }) rows);
    } };
}

impl<'a> Surroundings<'a> {
    ghost use Rattle.std.specs.Prelude.{◌≡◌, ℕ, ◌≤◌, ◌<◌, length, All, IfOk, IfSome, map};
    ghost use Rattle.dpl_limits.specs.declared.TheConstants.{MOST_REACH, MOST_TILES};
    ghost use Rattle.dpl_cell.specs.Places.{corners_of};
    ghost use Rattle.dpl_near.specs.Around.{AreAround, HasOthers, Shaped};

    /// A finder over these rectangles, which are of these shapes. `reach` is in grid units.
    pub fn new(
        alloc: Global,
        rects: &'a [Rect],
        shape: &'a [u32],
        reach: u64,
    ) -> Result<Surroundings<'a>, NoMemory>
        requires few { length rects.now ≤ MOST_TILES }
        requires long { length shape.now ≡ length rects.now }
        requires near { reach ≤ MOST_REACH }
        ensures { IfOk result (λ s. s ≡
            record { rects = map corners_of rects.now; shape = shape.now; reach = reach }) }
    {
        let bounds = all_bounds(alloc, rects)?;
        let kinds = Vec::from_slice(alloc, shape)?;
        let index = KindIndex::new(alloc, bounds, kinds)?;
        let rows = all_around(alloc, rects, shape, reach, &index)?;
        Ok(Surroundings {
            rects,
            shape,
            reach,
            index,
            rows,
        })
    }

    /// Whether there is too much around the rectangles to be kept in rows.
    pub fn is_dense(&self) -> bool {
        match &self.rows {
            None => true,
            Some(_) => false,
        }
    }

    /// What stands around the rectangle `i`.
    pub fn around(&self, alloc: Global, i: u32) -> Result<Vec<u32>, NoMemory>
        requires { i < length self.now.rects }
        ensures { IfOk result (λ v. AreAround self.now i v.items) }
    {
        match &self.rows {
            None => self.around_within(alloc, i, self.reach),
            Some(rows) => {
                let row = Vec::from_slice(alloc, rows.row(i as usize))?;
                Ok(row)
            }
        }
    }

    /// The same, or `None` where with the rectangle itself there may be more than `most`.
    pub fn few_around(
        &self,
        alloc: Global,
        i: u32,
        most: usize,
    ) -> Result<Option<Vec<u32>>, NoMemory>
        requires { i < length self.now.rects }
        ensures { IfOk result (λ few. IfSome few (λ v. AreAround self.now i v.items)) }
    {
        match &self.rows {
            None => self.few_in_index(alloc, i, most),
            Some(rows) => {
                let row = rows.row(i as usize);
                if row.len() >= most {
                    return Ok(None);
                }
                let row = Vec::from_slice(alloc, row)?;
                Ok(Some(row))
            }
        }
    }

    /// The same by a search in the index.
    fn few_in_index(&self, alloc: Global, i: u32, most: usize) -> Result<Option<Vec<u32>>, NoMemory>
        requires { i < length self.now.rects }
        ensures { IfOk result (λ few. IfSome few (λ v. AreAround self.now i v.items)) }
    {
        let i = i as usize;
        let ask = ask_around(&self.rects[i], self.shape[i], self.reach);
        match self.index.few_asked(alloc, &ask, most)? {
            None => Ok(None),
            Some(found) => {
                let found = found.as_slice();
                let near = close_among(alloc, self.rects, self.shape, self.reach, i, found)?;
                Ok(Some(near))
            }
        }
    }

    /// What stands around the rectangle `i` within another reach.
    pub fn around_within(&self, alloc: Global, i: u32, reach: u64) -> Result<Vec<u32>, NoMemory>
        requires within { i < length self.now.rects }
        requires shorter { reach ≤ self.now.reach }
        ensures { IfOk result (λ v. AreAround (record {
          rects = self.now.rects;
          shape = self.now.shape;
          reach = reach;
        }) i v.items) }
    {
        let i = i as usize;
        let ask = ask_around(&self.rects[i], self.shape[i], reach);
        let found = self.index.asked(alloc, &ask)?;
        let near = close_among(alloc, self.rects, self.shape, reach, i, found.as_slice())?;
        Ok(near)
    }

    /// Numbers of rectangles, among them all that lie within a reach of another rectangle, which is of this shape, and
    /// are of other shapes.
    pub fn others_beside(
        &self,
        alloc: Global,
        rect: &Rect,
        shape: u32,
        reach: u64,
    ) -> Result<Vec<u32>, NoMemory>
        requires shorter { reach ≤ self.now.reach }
        ensures { IfOk result (λ v. HasOthers self.now reach (corners_of rect.now) shape v.items) }
    {
        let _rects = self.rects.len();
        let ask = ask_around(rect, shape, reach);
        let found = self.index.asked(alloc, &ask)?;
        let others = narrow(alloc, found.as_slice())?;
        Ok(others)
    }

    /// Some of the rectangles of other shapes than this one within so many columns and rows of a rectangle: all, or one
    /// more than `most`.
    pub fn some_beside(
        &self,
        alloc: Global,
        rect: &Rect,
        shape: u32,
        columns: u64,
        rows: u64,
        most: usize,
    ) -> Result<Vec<u32>, NoMemory>
        requires columns { columns ≤ self.now.reach }
        requires rows { rows ≤ self.now.reach }
        ensures { IfOk result (λ v. All (λ j. j < length self.now.rects) v.items) }
    {
        let _rects = self.rects.len();
        let (wide, high) = (within_reach(rect, columns), within_reach(rect, rows));
        let far = Bounds {
            left: wide.left,
            right: wide.right,
            low: high.low,
            high: high.high,
        };
        let ask = Ask {
            near: within_reach(rect, 1),
            far,
            kind: shape,
        };
        let found = self.index.some_asked(alloc, &ask, most)?;
        let some = narrow(alloc, found.as_slice())?;
        Ok(some)
    }
}

/// What is asked for around a rectangle of a shape: what meets it widened by the reach, and of its own shape by one.
pub fn ask_around(rect: &Rect, shape: u32, reach: u64) -> Ask
    requires { reach ≤ MOST_REACH }
    ensures kind { result.kind ≡ shape }
    ensures near { (other : Corners) →
        AreClose (IsIn (corners_of rect.now)) (IsIn other) 1 → Meets (bounds_of other) result.near }
    ensures far { (other : Corners) →
        AreClose (IsIn (corners_of rect.now)) (IsIn other) reach → Meets (bounds_of other) result.far }
{
    let near = within_reach(rect, 1);
    let far = within_reach(rect, reach);
    Ask {
        near,
        far,
        kind: shape,
    }
}

/// The same numbers in 32 bits.
fn narrow(alloc: Global, found: &[usize]) -> Result<Vec<u32>, NoMemory>
    requires { All (λ j. j < MOST_TILES) found.now }
    ensures { IfOk result (λ v. v.items ≡ found.now) }
{
    let mut numbers = Vec::with_capacity(alloc, found.len())?;
    for j in found {
        numbers.push(*j as u32)?;
    }
    Ok(numbers)
}

/// The rectangles around one, among those that may be.
fn close_among(
    alloc: Global,
    rects: &[Rect],
    shape: &[u32],
    reach: u64,
    i: usize,
    found: &[usize],
) -> Result<Vec<u32>, NoMemory>
    requires few { length rects.now ≤ MOST_TILES }
    requires near { reach ≤ MOST_REACH }
    requires within { i < length rects.now }
    requires found { MayBeAround (record {
      rects = map corners_of rects.now;
      shape = shape.now;
      reach = reach;
    }) i found.now }
    ensures { IfOk result (λ v. AreAround (record {
      rects = map corners_of rects.now;
      shape = shape.now;
      reach = reach;
    }) i v.items) }
{
    let mut near = Vec::with_capacity(alloc, found.len())?;
    for j in found {
        push_near(&mut near, rects, reach, i, *j)?;
    }
    Ok(near)
}

/// Adds a rectangle if it is near another.
fn push_near(
    found: &mut Vec<u32>,
    rects: &[Rect],
    reach: u64,
    i: usize,
    j: usize,
) -> Result<(), NoMemory>
    requires few { length rects.now ≤ MOST_TILES }
    requires near { reach ≤ MOST_REACH }
    requires within { i < length rects.now }
    requires other { j < length rects.now }
    ensures { OnOk result (AddsNear (record { rects = map corners_of rects.now; reach = reach })
        i j found.old.items found.new.items) }
{
    if j != i && are_close(&rects[i], &rects[j], reach) {
        found.push(j as u32)?;
    }
    Ok(())
}
