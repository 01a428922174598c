//! A permutation that splices change.
ghost use Rattle.std.specs.Prelude.{◌≡◌, ◌≢◌, ◌+◌, ◌<◌, ◌^◌, length, slice_index, swap, IfOk, EachIndex};
ghost use Rattle.dpl_ring.specs.Rings.{IsRing, IsKept, cycle_count, least_of};

use crate::pairs::Pairs;
use std::alloc::{AllocError, Global};
use std::marker::Model;

/// A permutation of the numbers below `n`. Contracts see the list of what each number leads to.
#[derive(Drop)]
pub struct Ring {
    pairs: Option<Pairs>,
}

impl Model for Ring {
    ghost use Rattle.std.specs.Prelude.{List, ℕ};
    ghost use Rattle.dpl_ring.specs.Rings.{IsKept, nexts_in, prevs_in};

    ghost Value = { List ℕ };

    ghost view = { λ r. nexts_in r.pairs };

    ghost invariant = { λ r. IsKept (nexts_in r.pairs) (prevs_in r.pairs) };
}

/// The four writes of a splice.
fn exchange(pairs: &mut Pairs, i: u32, j: u32)
    requires kept { IsKept pairs.old.0 pairs.old.1 }
    requires places { (i < length pairs.old.0) × (j < length pairs.old.0) }
    ensures kept { IsKept pairs.new.0 pairs.new.1 }
    ensures value { pairs.new.0 ≡ swap pairs.old.0 i j }
{
    let after_i = pairs.next(i);
    let after_j = pairs.next(j);
    pairs.set_next(i, after_j);
    pairs.set_next(j, after_i);
    pairs.set_prev(after_j, i);
    pairs.set_prev(after_i, j);
}

impl Ring {
    /// Each number leads to itself.
    pub fn new(alloc: Global, n: u32) -> Result<Ring, AllocError>
        requires { n < 2 ^ 31 }
        ensures length { IfOk result (λ r. length r ≡ n) }
        ensures alone { IfOk result (λ r. EachIndex r (λ k. slice_index r k ≡ k)) }
    {
        if n == 0 {
            return Ok(Ring { pairs: None });
        }
        let pairs = Pairs::new(alloc, n)?;
        Ok(Ring { pairs: Some(pairs) })
    }

    /// The number that `i` leads to.
    pub fn next(&self, i: u32) -> u32
        requires { i < length self.now }
        ensures value { result ≡ slice_index self.now i }
        ensures range { result < length self.now }
        ensures ring { IsRing self.now }
    {
        match &self.pairs {
            Some(pairs) => pairs.next(i),
            None => unreachable!(),
        }
    }

    /// The number that leads to `i`; there is no other.
    pub fn prev(&self, i: u32) -> u32
        requires { i < length self.now }
        ensures value { slice_index self.now result ≡ i }
        ensures range { result < length self.now }
        ensures only { EachIndex self.now (λ k. slice_index self.now k ≡ i → k ≡ result) }
    {
        match &self.pairs {
            Some(pairs) => pairs.prev(i),
            None => unreachable!(),
        }
    }

    /// Exchanges what `i` and `j` lead to. With `i = j` nothing changes.
    pub fn splice(&mut self, i: u32, j: u32)
        requires first { i < length self.old }
        requires second { j < length self.old }
        ensures value { self.new ≡ swap self.old i j }

        // Where i and j are on one cycle it falls into two, and otherwise their two cycles become one.
        ensures splits { i ≢ j → least_of self.old i ≡ least_of self.old j →
            cycle_count self.new ≡ cycle_count self.old + 1 }
        ensures merges { i ≢ j → least_of self.old i ≢ least_of self.old j →
            cycle_count self.new + 1 ≡ cycle_count self.old }
    {
        match &mut self.pairs {
            Some(pairs) => exchange(pairs, i, j),
            None => unreachable!(),
        }
    }
}

#[cfg(test)]
mod tests {
    use super::*;

    #[test]
    fn six_members(rt: HostRuntime) -> Result<(), AllocError> {
        let mut ring = Ring::new(rt.alloc(), 6)?;
        assert_eq!(rt; ring.next(0), 0);
        ring.splice(0, 3);
        assert_eq!(rt; (ring.next(0), ring.next(3)), (3, 0));
        ring.splice(0, 3);
        assert_eq!(rt; (ring.next(0), ring.next(3)), (0, 3));
        ring.splice(2, 2);
        assert_eq!(rt; (ring.next(2), ring.prev(2)), (2, 2));
        ring.splice(0, 1);
        ring.splice(1, 2);
        assert_eq!(rt; (ring.next(0), ring.next(1), ring.next(2)), (1, 2, 0));
        assert_eq!(rt; (ring.prev(0), ring.prev(1), ring.prev(2)), (2, 0, 1));
        Ok(())
    }
}
