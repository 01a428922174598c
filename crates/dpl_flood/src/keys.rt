//! A key for each place, and the least of them.

ghost use Rattle.std.specs.Prelude.{◌≡◌, ◌<◌, ◌≤◌, ◌*◌, ◌^◌, All, Contains, length, drop, slice_index, slice_set, replicate, IfOk};
ghost use Rattle.dpl_flood.specs.Queues.{never, IsFirst, IsHeap};

use std::alloc::{AllocError, Global};
use std::marker::Model;

/// A key for each place. Contracts see the list of the keys.
///
/// The keys are the leaves of a tree in which each number is the lesser of the two below it. No key is ever out of date,
/// and its memory is that of twice the places from the beginning to the end.
#[derive(Drop)]
pub struct Keys {
    count: usize,
    least: Vec<u64>,
}

impl Model for Keys {
    ghost use Rattle.std.specs.Prelude.{List, ℕ, drop};
    ghost use Rattle.dpl_flood.specs.Queues.{IsHeap};

    ghost Value = { List ℕ };

    ghost view = { λ q. drop q.count q.least.items };

    ghost invariant = { λ q. IsHeap q.count q.least.items };
}

/// Writes the key of a place, and the numbers above it as far as they change.
fn write(least: &mut [u64], count: usize, place: usize, key: u64)
    requires heap { IsHeap count least.old }
    requires place { place < count }
    ensures heap { IsHeap count least.new }
    ensures keys { drop count least.new ≡ slice_set (drop count least.old) place key }
{
    let mut here = count + place;
    least[here] = key;
    while here > 1 {
        here = here / 2;
        let lesser = least[2 * here].min(least[2 * here + 1]);
        if least[here] == lesser {
            return;
        }
        least[here] = lesser;
    }
}

/// The least key.
fn root(least: &[u64], count: usize) -> u64
    requires heap { IsHeap count least.now }
    requires some { 0 < count }
    ensures { IsFirst (drop count least.now) result }
{
    least[1]
}

/// A place that has the least key.
fn place_of_root(least: &[u64], count: usize) -> usize
    requires heap { IsHeap count least.now }
    requires some { 0 < count }
    ensures inside { result < count }
    ensures first { IsFirst (drop count least.now) (slice_index (drop count least.now) result) }
{
    let mut here = 1;
    while here < count {
        let left = 2 * here;
        here = if least[left] == least[here] {
            left
        } else {
            left + 1
        };
    }
    here - count
}

impl Keys {
    /// So many places whose keys are the greatest number. It costs the places.
    pub fn new(alloc: Global, places: usize) -> Result<Keys, AllocError>
        requires { 2 * places < 2 ^ 64 }
        ensures { IfOk result (λ q. q ≡ replicate places never) }
    {
        Ok(Keys {
            count: places,
            least: vec![in alloc; u64::MAX; 2 * places]?,
        })
    }

    /// How many places there are.
    pub fn len(&self) -> usize
        ensures count { result ≡ length self.now }
        ensures few { 2 * result < 2 ^ 64 }
    {
        self.count
    }

    /// The key of a place.
    pub fn key(&self, place: usize) -> u64
        requires { place < length self.now }
        ensures { result ≡ slice_index self.now place }
    {
        self.least[self.count + place]
    }

    /// Writes the key of a place. It costs at most a logarithm of the places, and less where little changes.
    pub fn set(&mut self, place: usize, key: u64)
        requires { place < length self.old }
        ensures { self.new ≡ slice_set self.old place key }
    {
        write(&mut self.least, self.count, place, key);
    }

    /// The least key, or where there is no place the greatest number.
    pub fn least(&self) -> u64
        ensures all { All (λ key. result ≤ key) self.now }
        ensures one { 0 < length self.now → Contains self.now result }
        ensures none { length self.now ≡ 0 → result ≡ never }
        ensures most { All (λ key. key ≤ never) self.now }
    {
        if self.count == 0 {
            return u64::MAX;
        }
        root(&self.least, self.count)
    }

    /// A place that has the least key. It costs a logarithm of the places.
    pub fn place(&self) -> usize
        requires { 0 < length self.now }
        ensures inside { result < length self.now }
        ensures few { 2 * result < 2 ^ 64 }
        ensures first { IsFirst self.now (slice_index self.now result) }
    {
        place_of_root(&self.least, self.count)
    }

    /// All keys are the greatest number again. It costs a logarithm of the places for each that is not.
    pub fn clear(&mut self)
        ensures { self.new ≡ replicate (length self.old) never }
    {
        'keys: while self.least() < u64::MAX {
            let place = self.place();
            self.set(place, u64::MAX);
        }
    }
}
