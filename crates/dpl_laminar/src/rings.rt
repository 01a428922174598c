//! Rings of children in one permutation of all set numbers.

ghost use Rattle.std.specs.Prelude.{◌≡◌, ℕ, ◌<◌, true, false, length, slice_index};
ghost use Rattle.dpl_laminar.specs.Families.{has, next_in};
ghost use Rattle.dpl_laminar.specs.Storing.{circle_of, IsCircle, AreBelow, AreOnce};

use dpl_ring::Ring;

/// Puts numbers that stand alone into one ring, in their order.
pub fn tie(ring: &mut Ring, children: &[u32])
    requires below { AreBelow children.now (length ring.old) }
    requires alone { (i : ℕ) → i < length children.now →
        slice_index ring.old (slice_index children.now i) ≡ slice_index children.now i }
    requires distinct { AreOnce children.now }
    ensures length { length ring.new ≡ length ring.old }
    ensures circle { (i : ℕ) → i < length children.now →
        slice_index ring.new (slice_index children.now i) ≡ next_in children.now i }
    ensures others { (c : ℕ) → has children.now c ≡ false →
        slice_index ring.new c ≡ slice_index ring.old c }
{
    for i in 1..children.len() {
        ring.splice(children[i - 1], children[i]);
    }
}

/// Takes a ring apart: each number of it stands alone again.
pub fn untie(ring: &mut Ring, first: u32, count: usize)
    requires some { 0 < count }
    requires circle { IsCircle ring.old first count }
    ensures length { length ring.new ≡ length ring.old }
    ensures alone { (c : ℕ) → has (circle_of ring.old first count) c ≡ true →
        slice_index ring.new c ≡ c }
    ensures others { (c : ℕ) → has (circle_of ring.old first count) c ≡ false →
        slice_index ring.new c ≡ slice_index ring.old c }
{
    for _ in 1..count {
        let next = ring.next(first);
        ring.splice(first, next);
    }
}
