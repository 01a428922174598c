//! Rings whose cycles have names.

ghost use Rattle.std.specs.Prelude.{◌≡◌, ◌≢◌, ℕ, ◌+◌, ◌<◌, ◌≤◌, ◌^◌, ◌↔◌, length, slice_index, swap, IfOk, EachIndex, IsTrue};
ghost use Rattle.dpl_ring.specs.Rings.{IsRing, least_of};

use crate::walking::{mark, shorter_first};
use dpl_ring::Ring;
use std::alloc::{AllocError, Global};
use std::marker::Model;

/// A permutation of the numbers below `n` each of whose cycles has a name. Contracts see where each
/// number leads, and a number above all names.
#[derive(Drop)]
pub struct Cycles {
    ring: Ring,
    names: Vec<u64>,
    fresh: u64,
}

impl Model for Cycles {
    ghost use Rattle.dpl_drawing.specs.Named.{Named, IsNamed};

    ghost Value = { Named };

    ghost view = { λ c. record { nexts = c.ring; fresh = c.fresh } };

    ghost invariant = { λ c. IsNamed c.ring c.names.items c.fresh };
}

/// The numbers below `n` in order.
fn ascending(alloc: Global, n: u32) -> Result<Vec<u64>, AllocError>
    ensures length { IfOk result (λ v. length v.items ≡ n) }
    ensures each { IfOk result (λ v. EachIndex v.items (λ k. slice_index v.items k ≡ k)) }
{
    let mut numbers = Vec::with_capacity(alloc, n as usize)?;
    for i in 0..n {
        numbers.push(u64::from(i))?;
    }
    Ok(numbers)
}

impl Cycles {
    /// Each number leads to itself.
    pub fn new(alloc: Global, n: u32) -> Result<Cycles, AllocError>
        requires { n < 2 ^ 31 }
        ensures length { IfOk result (λ c. length c.nexts ≡ n) }
        ensures alone { IfOk result (λ c. EachIndex c.nexts (λ k. slice_index c.nexts k ≡ k)) }
        ensures room { IfOk result (λ c. c.fresh ≡ n) }
    {
        let ring = Ring::new(alloc, n)?;
        let names = ascending(alloc, n)?;
        let fresh = u64::from(n);
        Ok(Cycles { ring, names, fresh })
    }

    /// The ring without the names.
    pub fn ring(&self) -> &Ring
        ensures { result.now ≡ self.now.nexts }
    {
        &self.ring
    }

    /// The number that `i` leads to.
    pub fn next(&self, i: u32) -> u32
        requires { i < length self.now.nexts }
        ensures { result ≡ slice_index self.now.nexts i }
    {
        self.ring.next(i)
    }

    /// The number that leads to `i`; there is no other.
    pub fn prev(&self, i: u32) -> u32
        requires { i < length self.now.nexts }
        ensures value { slice_index self.now.nexts result ≡ i }
        ensures range { result < length self.now.nexts }
        ensures only { EachIndex self.now.nexts (λ k. slice_index self.now.nexts k ≡ i →
            k ≡ result) }
    {
        self.ring.prev(i)
    }

    /// Whether two numbers are on one cycle.
    pub fn are_together(&self, i: u32, j: u32) -> bool
        requires first { i < length self.now.nexts }
        requires second { j < length self.now.nexts }
        ensures value { IsTrue result ↔ (least_of self.now.nexts i ≡ least_of self.now.nexts j) }
        ensures ring { IsRing self.now.nexts }
    {
        let _after = self.ring.next(i);
        self.names[i as usize] == self.names[j as usize]
    }

    /// Exchanges what two numbers of one cycle lead to. The shorter part gets a new name.
    fn split(&mut self, i: u32, j: u32)
        requires first { i < length self.old.nexts }
        requires second { j < length self.old.nexts }
        requires apart { i ≢ j }
        requires together { least_of self.old.nexts i ≡ least_of self.old.nexts j }
        requires room { self.old.fresh + 1 < 2 ^ 64 }
        ensures nexts { self.new.nexts ≡ swap self.old.nexts i j }
        ensures room { self.new.fresh ≡ self.old.fresh + 1 }
    {
        let _after = self.ring.next(i);
        self.ring.splice(i, j);
        let (part, _rest) = shorter_first(&self.ring, i, j);
        mark(&self.ring, part, self.fresh, &mut self.names);
        self.fresh += 1;
    }

    /// Exchanges what numbers of two cycles lead to. The shorter cycle gets the name of the other.
    fn join(&mut self, i: u32, j: u32)
        requires first { i < length self.old.nexts }
        requires second { j < length self.old.nexts }
        requires apart { least_of self.old.nexts i ≢ least_of self.old.nexts j }
        ensures nexts { self.new.nexts ≡ swap self.old.nexts i j }
        ensures room { self.new.fresh ≡ self.old.fresh }
    {
        let (from, to) = shorter_first(&self.ring, i, j);
        let name = self.names[to as usize];
        mark(&self.ring, from, name, &mut self.names);
        self.ring.splice(i, j);
    }

    /// Exchanges what two numbers lead to. Where they are on one cycle it falls into two, and
    /// otherwise their two cycles become one. Only the shorter of the two is walked.
    pub fn splice(&mut self, i: u32, j: u32)
        requires first { i < length self.old.nexts }
        requires second { j < length self.old.nexts }
        requires apart { i ≢ j }
        requires room { self.old.fresh + 1 < 2 ^ 64 }
        ensures nexts { self.new.nexts ≡ swap self.old.nexts i j }
        ensures room { self.new.fresh ≤ self.old.fresh + 1 }
    {
        if self.are_together(i, j) {
            self.split(i, j);
        } else {
            self.join(i, j);
        }
    }
}
