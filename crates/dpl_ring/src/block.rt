//! One raw block of pairs. Only the four functions here follow its pointer.
ghost use Rattle.std.specs.Prelude.{◌≡◌, ℕ, ◌<◌, ◌^◌, Bool, List, length, true, IfSome, slice_set};
ghost use denote.RawPtr.{Ptr};
ghost use Rattle.dpl_ring.specs.Places.{pair_at, is_written};
ghost use Rattle.dpl_ring.specs.declared.pair.Pair.{Pair};

use crate::pair::Pair;
use std::alloc::Allocator;
use std::marker::{Model, PhantomData};
use std::mem::{align_of, size_of};

/// `count` places at `at`, of which some are written.
pub(crate) struct Block {
    at: *mut Pair,
    count: usize,
    pub ghost items: { List Pair },
    pub ghost filled: { List Bool },
    pub ghost sizes: { (count ≡ length items) × (count ≡ length filled) },
    pub ghost small: { count < 2 ^ 31 },
}

impl Model for Block {
    ghost use Rattle.dpl_ring.specs.Blocks.{block_owns, block_lends};

    ghost also_owns = { λ b. block_owns b.at b.items b.filled };

    ghost also_shares = { λ b _ κ. block_lends b.at b.items b.filled κ };
}

/// The right to give the block of `count` places at `at` back to its allocator.
pub(crate) struct Lease<A: Allocator> {
    marker: PhantomData<A>,
    pub ghost alloc: { A },
    pub ghost at: { Ptr },
    pub ghost count: { ℕ },
}

impl<A: Allocator> Model for Lease<A> {
    ghost use Rattle.dpl_ring.specs.Blocks.{pairs_of};

    ghost also_owns = { λ l. A.dealloc_token l.alloc (pairs_of l.count) l.at };
}

impl Block {
    /// A block of `count` places, of which none is written.
    pub(crate) fn take<A: Allocator>(alloc: &A, count: usize) -> Option<(Block, Lease<A>)>
        requires { count < 2 ^ 31 }
        ensures { IfSome result (λ m. (length m.0.items ≡ count) × (m.1.alloc ≡ alloc.now) ×
            (m.1.at ≡ m.0.at) × (m.1.count ≡ m.0.count)) }
    {
        match alloc.allocate(count * size_of::<Pair>(), align_of::<Pair>()) {
            Ok(block) => {
                let at = block as *mut Pair;
                let marker = PhantomData;
                Some((Block { at, count }, Lease { marker }))
            }
            Err(_) => None,
        }
    }

    /// Gives the block back.
    pub(crate) fn free<A: Allocator>(self, lease: Lease<A>, alloc: &A)
        requires { (lease.alloc ≡ alloc.now) × (lease.at ≡ self.at) × (lease.count ≡ self.count) }
    {
        let Block { at, count } = self;
        let Lease { marker: _ } = lease;
        unsafe {
            alloc.deallocate(at as *mut u8, count * size_of::<Pair>(), align_of::<Pair>());
        }
    }

    /// What place `i` holds.
    pub(crate) fn get(&self, i: usize) -> &Pair
        requires { (i < length self.now.items) × is_written self.now.filled i }
        ensures { result.now ≡ pair_at self.now.items i }
    {
        unsafe { &*self.at.add(i) }
    }

    /// Writes place `i`.
    pub(crate) fn put(&mut self, i: usize, pair: Pair)
        requires { i < length self.old.items }
        ensures { (self.new.items ≡ slice_set self.old.items i pair) ×
            (self.new.filled ≡ slice_set self.old.filled i true) × (self.new.at ≡ self.old.at) ×
            (self.new.count ≡ self.old.count) }
    {
        unsafe { *self.at.add(i) = pair }
    }
}
