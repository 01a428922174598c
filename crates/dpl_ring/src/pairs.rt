//! The pairs of all numbers in one block, which goes back to its allocator at the end.
ghost use Rattle.std.specs.Prelude.{◌≡◌, ◌<◌, ◌^◌, length, slice_index, slice_set, IfOk, EachIndex};
ghost use Rattle.dpl_ring.specs.Pairs.{IsIdentity};

use crate::block::{Block, Lease};
use crate::pair::Pair;
use std::alloc::{AllocError, Global};
use std::marker::Model;

/// Contracts see two lists: where each number leads, and what leads to it.
pub(crate) struct Pairs {
    block: Block,
    lease: Lease<Global>,
    alloc: Global,
}

impl Model for Pairs {
    ghost use Rattle.std.specs.Prelude.{List, ℕ};
    ghost use Rattle.dpl_ring.specs.Pairs.{nexts_of, prevs_of, IsWhole};

    ghost Value = { List ℕ × List ℕ };

    ghost view = { λ p. (nexts_of p.block.items, prevs_of p.block.items) };

    ghost invariant = { λ p. IsWhole p.block p.lease p.alloc };
}

impl Drop for Pairs {
    fn drop(self) {
        let Pairs {
            block,
            lease,
            alloc,
        } = self;
        block.free(lease, &alloc);
    }
}

/// Writes at each place its own number, twice.
fn write_identity(block: &mut Block, n: u32)
    requires { length block.old.items ≡ n }
    ensures { IsIdentity block.old block.new }
{
    for i in 0..n {
        block.put(i as usize, Pair { next: i, prev: i });
    }
}

impl Pairs {
    /// Each of the `n` numbers leads to itself.
    pub(crate) fn new(alloc: Global, n: u32) -> Result<Pairs, AllocError>
        requires { n < 2 ^ 31 }
        ensures nexts { IfOk result (λ p. (length p.0 ≡ n) ×
            EachIndex p.0 (λ k. slice_index p.0 k ≡ k)) }
        ensures prevs { IfOk result (λ p. (length p.1 ≡ n) ×
            EachIndex p.1 (λ k. slice_index p.1 k ≡ k)) }
    {
        match Block::take(&alloc, n as usize) {
            Some((block, lease)) => {
                let mut block = block;
                write_identity(&mut block, n);
                Ok(Pairs {
                    block,
                    lease,
                    alloc,
                })
            }
            None => Err(AllocError),
        }
    }

    pub(crate) fn next(&self, i: u32) -> u32
        requires { i < length self.now.0 }
        ensures { result ≡ slice_index self.now.0 i }
    {
        self.block.get(i as usize).next
    }

    pub(crate) fn prev(&self, i: u32) -> u32
        requires { i < length self.now.1 }
        ensures { result ≡ slice_index self.now.1 i }
    {
        self.block.get(i as usize).prev
    }

    pub(crate) fn set_next(&mut self, i: u32, next: u32)
        requires { i < length self.old.0 }
        ensures { self.new ≡ (slice_set self.old.0 i next, self.old.1) }
    {
        let prev = self.block.get(i as usize).prev;
        self.block.put(i as usize, Pair { next, prev });
    }

    pub(crate) fn set_prev(&mut self, i: u32, prev: u32)
        requires { i < length self.old.1 }
        ensures { self.new ≡ (self.old.0, slice_set self.old.1 i prev) }
    {
        let next = self.block.get(i as usize).next;
        self.block.put(i as usize, Pair { next, prev });
    }
}
