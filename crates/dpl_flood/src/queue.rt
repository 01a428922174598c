//! The keys of ways and of sets, and the least of them.

ghost use Rattle.std.specs.Prelude.{◌≡◌, ◌+◌, ◌<◌, ◌*◌, ◌^◌, length, slice_index, slice_set, replicate, IfOk};
ghost use Rattle.dpl_flood.specs.Queues.{never, IsFirst};

use crate::keys::Keys;
use std::alloc::{AllocError, Global};
use std::marker::Model;

/// A key for each way and, behind these, for each set. Contracts see the list of the keys.
///
/// The places of the ways are lent to one part after another, and those of the sets are its own.
#[derive(Drop)]
pub struct Queue {
    ways: Keys,
    sets: Keys,
}

impl Model for Queue {
    ghost use Rattle.std.specs.Prelude.{List, ℕ, ◌++◌};

    ghost Value = { List ℕ };

    ghost view = { λ q. q.ways ++ q.sets };
}

/// So many places whose keys are the greatest number: these, where they are so many.
fn cleared(alloc: Global, keys: Keys, places: usize) -> Result<Keys, AllocError>
    requires { 2 * places < 2 ^ 64 }
    ensures { IfOk result (λ k. k ≡ replicate places never) }
{
    if keys.len() != places {
        return Keys::new(alloc, places);
    }
    let mut keys = keys;
    keys.clear();
    Ok(keys)
}

impl Queue {
    /// So many ways and sets, whose keys are the greatest number. It costs the sets, and the keys that are to be cleared; where
    /// the places that are lent are not those of so many ways, it costs the ways.
    pub fn new(alloc: Global, lent: Keys, ways: usize, sets: usize) -> Result<Queue, AllocError>
        requires ways { 2 * ways < 2 ^ 64 }
        requires sets { 2 * sets < 2 ^ 64 }
        ensures { IfOk result (λ q. q ≡ replicate (ways + sets) never) }
    {
        let ways = cleared(alloc, lent, ways)?;
        let sets = Keys::new(alloc, sets)?;
        Ok(Queue { ways, sets })
    }

    /// The places of the ways, for another part.
    pub fn give_back(self) -> Keys {
        self.ways
    }

    /// The key of a place.
    pub fn key(&self, place: usize) -> u64
        requires { place < length self.now }
        ensures { result ≡ slice_index self.now place }
    {
        let ways = self.ways.len();
        if place < ways {
            return self.ways.key(place);
        }
        self.sets.key(place - ways)
    }

    /// Writes the key of a place. It costs at most a logarithm of the places, and less where little changes.
    pub fn set(&mut self, place: usize, key: u64)
        requires { place < length self.old }
        ensures { self.new ≡ slice_set self.old place key }
    {
        let ways = self.ways.len();
        if place < ways {
            self.ways.set(place, key);
        } else {
            self.sets.set(place - ways, key);
        }
    }

    /// The least key.
    pub fn first(&self) -> u64
        requires { 0 < length self.now }
        ensures { IsFirst self.now result }
    {
        self.ways.least().min(self.sets.least())
    }

    /// A place that has the least key. It costs a logarithm of the places.
    pub fn place(&self) -> usize
        requires { 0 < length self.now }
        ensures inside { result < length self.now }
        ensures first { IsFirst self.now (slice_index self.now result) }
    {
        let ways = self.ways.len();
        if ways > 0 && self.ways.least() <= self.sets.least() {
            return self.ways.place();
        }
        ways + self.sets.place()
    }
}
