//! Numbers for the cycles of a permutation.

ghost use Rattle.std.specs.Prelude.{◌≡◌, ◌≢◌, ℕ, ◌<◌, ◌≤◌, ◌/◌, ◌^◌, true, length, slice_index, IfOk, EachIndex};
ghost use Rattle.dpl_cycle.specs.Cycles.{Permutes};
ghost use Rattle.dpl_cycle.specs.Sums.{count_on};
ghost use Rattle.dpl_ring.specs.Rings.{least_of};
ghost use Rattle.dpl_sign.specs.Drawings.{is_in as in_set};
ghost use Rattle.dpl_drawing.specs.Marks.{MarksCycle, LeadsBack};
ghost use Rattle.dpl_drawing.specs.Faces.{is_first, cycle_number};

use dpl_ring::Ring;
use dpl_sign::is_in;
use std::alloc::{AllocError, Global};

/// The number of the cycle of each dart of a set of edges, and how many cycles there are.
#[derive(Drop)]
pub struct Numbered {
    pub numbers: Vec<u32>,
    pub count: u32,
}

/// Gives each member of the cycle of `start` a label that none of them has.
fn mark(nexts: &[u32], start: u32, label: u32, labels: &mut [u32])
    requires ring { LeadsBack nexts.now }
    requires start { start < length nexts.now }
    requires lengths { length labels.old ≡ length nexts.now }
    requires fresh { EachIndex labels.old (λ z.
        least_of nexts.now z ≡ least_of nexts.now start → slice_index labels.old z ≢ label) }
    ensures { MarksCycle nexts.now start label labels.old labels.new }
{
    let mut place = start;
    loop {
        labels[place as usize] = label;
        place = nexts[place as usize];
        if place == start {
            break;
        }
    }
}

/// So many times a number.
pub fn filled(alloc: Global, count: usize, value: u32) -> Result<Vec<u32>, AllocError>
    ensures length { IfOk result (λ v. length v.items ≡ count) }
    ensures each { IfOk result (λ v. EachIndex v.items (λ k. slice_index v.items k ≡ value)) }
{
    let list = vec![in alloc; value; count]?;
    Ok(list)
}

/// Where each number below a count leads.
pub fn listed(alloc: Global, ring: &Ring, count: u32) -> Result<Vec<u32>, AllocError>
    requires { length ring.now ≡ count }
    ensures length { IfOk result (λ v. length v.items ≡ count) }
    ensures each { IfOk result (λ v.
        EachIndex v.items (λ d. slice_index v.items d ≡ slice_index ring.now d)) }
{
    let mut nexts = Vec::with_capacity(alloc, count as usize)?;
    for number in 0..count {
        nexts.push(ring.next(number))?;
    }
    Ok(nexts)
}

const NONE: u32 = u32::MAX;

/// Numbers the cycles through the darts of a set of edges in the order of their least darts. Each
/// cycle is walked once.
pub fn number(alloc: Global, nexts: &[u32], set: &[bool]) -> Result<Numbered, AllocError>
    requires ring { LeadsBack nexts.now }
    requires small { length nexts.now < 2 ^ 31 }
    requires stays { EachIndex nexts.now (λ d.
        in_set set.now (slice_index nexts.now d / 2) ≡ in_set set.now (d / 2)) }
    ensures length { IfOk result (λ r. length r.numbers.items ≡ length nexts.now) }
    ensures numbers { IfOk result (λ r. EachIndex r.numbers.items (λ d.
        in_set set.now (d / 2) ≡ true →
        slice_index r.numbers.items d ≡
        cycle_number (slice_index nexts.now) (in_set set.now) (length nexts.now) d)) }
    ensures count { IfOk result (λ r. r.count ≡
        count_on (is_first (slice_index nexts.now) (in_set set.now) (length nexts.now))
        (length nexts.now)) }
{
    let mut numbers = filled(alloc, nexts.len(), NONE)?;
    let mut count = 0;
    for dart in 0..nexts.len() as u32 {
        let fresh = numbers[dart as usize] == NONE;
        if is_in(set, dart / 2) & fresh {
            mark(nexts, dart, count, &mut numbers);
            count += 1;
        }
    }
    Ok(Numbered { numbers, count })
}
