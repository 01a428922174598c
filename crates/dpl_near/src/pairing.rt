// What stands around each of some rectangles, where each pair of them is looked for once.
ghost use Rattle.std.specs.Prelude.{◌≡◌, ◌++◌, ◌∷◌, [], ℕ, ◌+◌, ◌≤◌, ◌<◌, All, length, IfOk, IfSome, OnOk, map, slice_index_or};
ghost use Rattle.dpl_limits.specs.declared.TheConstants.{MOST_REACH, MOST_TILES};
ghost use Rattle.dpl_cell.specs.Places.{corners_of};
ghost use Rattle.dpl_near.specs.Bounds.{bounds_of};
ghost use Rattle.dpl_near.specs.Pairs.{AddsPair, AddsPairs, ArePairedBefore, ArePairs, AreRows};

use crate::surroundings::ask_around;
use dpl_cell::{Rect, are_close};
use dpl_index::KindIndex;
use dpl_list::Grouped;
use std::alloc::{AllocError as NoMemory, Global};

/// Where there are more around each than so many, on the average, rows of them would take much memory.
const USUAL: usize = 16;

/// Numbers of rectangles, and beside each the number of one near it: both ways for two that are near each other.
#[derive(Drop)]
struct Pairs {
    keys: Vec<u32>,
    others: Vec<u32>,
}

/// A row for each rectangle, of what stands around it; or `None` where there are very many. Each two are looked for once,
/// from the one that stands first in the index.
pub fn all_around(
    alloc: Global,
    rects: &[Rect],
    shape: &[u32],
    reach: u64,
    index: &KindIndex,
) -> Result<Option<Grouped<u32>>, NoMemory>
    requires few { length rects.now ≤ MOST_TILES }
    requires long { length shape.now ≡ length rects.now }
    requires near { reach ≤ MOST_REACH }
    requires index { index.now.kinded ≡ record {
      items = map (λ r. bounds_of (corners_of r)) rects.now;
      kinds = shape.now;
    } }
    ensures { IfOk result (λ some. IfSome some (λ rows. AreRows (record {
      rects = map corners_of rects.now;
      shape = shape.now;
      reach = reach;
    }) rows)) }
{
    let mut pairs = Pairs {
        keys: Vec::new(alloc),
        others: Vec::new(alloc),
    };
    let mut found = Vec::new(alloc);
    for place in 0..index.places() {
        push_behind(&mut pairs, &mut found, rects, shape, reach, index, place)?;
        if pairs.keys.len() > rects.len() * USUAL {
            return Ok(None);
        }
    }
    let (keys, others) = (pairs.keys.as_slice(), pairs.others.as_slice());
    let rows = Grouped::by_key(alloc, rects.len() as u32, keys, others)?;
    Ok(Some(rows))
}

/// Adds the pairs of the rectangle at a place of the index with those behind it. The list of what is found is used again.
fn push_behind(
    pairs: &mut Pairs,
    found: &mut Vec<usize>,
    rects: &[Rect],
    shape: &[u32],
    reach: u64,
    index: &KindIndex,
    place: usize,
) -> Result<(), NoMemory>
    requires few { length rects.now ≤ MOST_TILES }
    requires long { length shape.now ≡ length rects.now }
    requires near { reach ≤ MOST_REACH }
    requires index { index.now.kinded ≡ record {
      items = map (λ r. bounds_of (corners_of r)) rects.now;
      kinds = shape.now;
    } }
    requires order { All (λ i. i < length rects.now) index.now.order }
    requires place { place < length index.now.order }
    requires before { ArePairedBefore (record {
      rects = map corners_of rects.now;
      shape = shape.now;
      reach = reach;
    }) index.now.order place pairs.old.keys.items pairs.old.others.items }
    ensures { OnOk result (ArePairedBefore (record {
      rects = map corners_of rects.now;
      shape = shape.now;
      reach = reach;
    }) index.now.order (place + 1) pairs.new.keys.items pairs.new.others.items) }
{
    let i = index.item_at(place);
    let ask = ask_around(&rects[i], shape[i], reach);
    index.put_asked_behind(place, &ask, found)?;
    push_near_ones(pairs, rects, reach, i, found.as_slice())?;
    Ok(())
}

/// Adds the pairs of a rectangle with those of some that are near it.
fn push_near_ones(
    pairs: &mut Pairs,
    rects: &[Rect],
    reach: u64,
    i: usize,
    found: &[usize],
) -> Result<(), NoMemory>
    requires few { length rects.now ≤ MOST_TILES }
    requires near { reach ≤ MOST_REACH }
    requires within { i < length rects.now }
    requires found { All (λ j. j < length rects.now) found.now }
    requires pairs { ArePairs (record { rects = map corners_of rects.now; reach = reach })
        pairs.old.keys.items pairs.old.others.items }
    ensures { OnOk result (AddsPairs (record { rects = map corners_of rects.now; reach = reach })
        i found.now pairs.old.keys.items pairs.old.others.items
        pairs.new.keys.items pairs.new.others.items) }
{
    for j in found {
        push_if_near(pairs, rects, reach, i, *j)?;
    }
    Ok(())
}

/// Adds the pair of two rectangles if they are near each other.
fn push_if_near(
    pairs: &mut Pairs,
    rects: &[Rect],
    reach: u64,
    i: usize,
    j: usize,
) -> Result<(), NoMemory>
    requires few { length rects.now ≤ MOST_TILES }
    requires near { reach ≤ MOST_REACH }
    requires within { i < length rects.now }
    requires other { j < length rects.now }
    ensures { OnOk result (AddsPair (record { rects = map corners_of rects.now; reach = reach })
        i j pairs.old.keys.items pairs.old.others.items
        pairs.new.keys.items pairs.new.others.items) }
{
    if j != i && are_close(&rects[i], &rects[j], reach) {
        push_both(pairs, i as u32, j as u32)?;
    }
    Ok(())
}

/// Adds a pair both ways.
fn push_both(pairs: &mut Pairs, i: u32, j: u32) -> Result<(), NoMemory>
    ensures keys { OnOk result (pairs.new.keys.items ≡
        pairs.old.keys.items ++ i ∷ [] ++ j ∷ []) }
    ensures others { OnOk result (pairs.new.others.items ≡
        pairs.old.others.items ++ j ∷ [] ++ i ∷ []) }
{
    pairs.keys.push(i)?;
    pairs.keys.push(j)?;
    pairs.others.push(j)?;
    pairs.others.push(i)?;
    Ok(())
}
