//! Walks along the cycles of a ring.

ghost use Rattle.std.specs.Prelude.{◌≡◌, ◌≢◌, ◌<◌, ◌⊎◌, length, EachIndex, slice_index};
ghost use Rattle.dpl_ring.specs.Rings.{IsRing, least_of};
ghost use Rattle.dpl_drawing.specs.Marks.{MarksCycle};

use dpl_ring::Ring;

/// Gives each member of the cycle of `start` a label that none of them has.
pub fn mark(ring: &Ring, start: u32, label: u64, labels: &mut [u64])
    requires start { start < length ring.now }
    requires lengths { length labels.old ≡ length ring.now }
    requires fresh { EachIndex labels.old (λ z.
        least_of ring.now z ≡ least_of ring.now start → slice_index labels.old z ≢ label) }
    ensures { MarksCycle ring.now start label labels.old labels.new }
{
    let mut place = start;
    loop {
        labels[place as usize] = label;
        place = ring.next(place);
        if place == start {
            break;
        }
    }
}

/// Whether a walk from `i` is back before one from `j`. It takes as many steps as the shorter cycle
/// is long, twice.
fn is_back_first(ring: &Ring, i: u32, j: u32) -> bool
    requires first { i < length ring.now }
    requires second { j < length ring.now }
{
    let (mut a, mut b) = (i, j);
    for _step in 0..u32::MAX {
        a = ring.next(a);
        if a == i {
            return true;
        }
        b = ring.next(b);
        if b == j {
            return false;
        }
    }
    true
}

/// The two numbers, that on the shorter cycle first. Which comes first is for speed alone.
pub fn shorter_first(ring: &Ring, i: u32, j: u32) -> (u32, u32)
    requires first { i < length ring.now }
    requires second { j < length ring.now }
    ensures either { ((result.0 ≡ i) × (result.1 ≡ j)) ⊎ ((result.0 ≡ j) × (result.1 ≡ i)) }
    ensures ring { IsRing ring.now }
{
    let _after = ring.next(i);
    if is_back_first(ring, i, j) {
        (i, j)
    } else {
        (j, i)
    }
}
