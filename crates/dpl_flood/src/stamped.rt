//! Numbers at places, all of which are forgotten at once.

ghost use Rattle.std.specs.Prelude.{◌≡◌, ◌<◌, ◌≤◌, ◌^◌, Some, None, IfOk, length, replicate, slice_index_or, slice_set};

use std::alloc::{AllocError, Global};
use std::marker::Model;

/// A number, and the stamp that it was written under.
#[derive(Clone, Copy, Debug)]
pub struct Entry {
    pub stamp: u32,
    pub number: u32,
}

/// A number at each place, or none. Contracts see the list of these.
///
/// What was written under an earlier stamp counts for nothing, so that a new stamp forgets all without touching it.
#[derive(Drop)]
pub struct Stamped {
    stamp: u32,
    entries: Vec<Entry>,
}

impl Model for Stamped {
    ghost use Rattle.std.specs.Prelude.{List, ℕ, Option, ◌<◌, ◌≤◌, All, map};
    ghost use Rattle.dpl_flood.specs.Holdings.{number_under};

    ghost Value = { List (Option ℕ) };

    ghost view = { λ s. map (number_under s.stamp) s.entries.items };

    ghost invariant = { λ s. All (λ e. e.stamp ≤ s.stamp) s.entries.items × (0 < s.stamp) };
}

impl Stamped {
    /// So many places without numbers. It costs the places.
    pub fn new(alloc: Global, places: usize) -> Result<Stamped, AllocError>
        ensures { IfOk result (λ s. s ≡ replicate places None) }
    {
        Ok(Stamped {
            stamp: 1,
            entries: vec![in alloc; Entry {
                stamp: 0,
                number: 0
            }; places]?,
        })
    }

    /// So many places without numbers: these, where they are so many. It costs the places where they are not.
    pub fn forgotten(self, alloc: Global, places: usize) -> Result<Stamped, AllocError>
        ensures { IfOk result (λ s. s ≡ replicate places None) }
    {
        let Stamped { stamp, entries } = self;
        let Some(stamp) = stamp.checked_add(1) else {
            return Stamped::new(alloc, places);
        };
        if entries.len() != places {
            return Stamped::new(alloc, places);
        }
        Ok(Stamped { stamp, entries })
    }

    /// The number at a place.
    pub fn get(&self, place: usize) -> Option<u32>
        ensures { result ≡ slice_index_or self.now place None }
    {
        match self.entries.get(place) {
            Some(entry) if entry.stamp == self.stamp => Some(entry.number),
            _ => None,
        }
    }

    /// Writes a number at a place.
    pub fn put(&mut self, place: usize, number: u32)
        requires { place < length self.old }
        ensures { self.new ≡ slice_set self.old place (Some number) }
    {
        self.entries[place] = Entry {
            stamp: self.stamp,
            number,
        };
    }

    /// Takes the number at a place away.
    pub fn take(&mut self, place: usize)
        requires { place < length self.old }
        ensures { self.new ≡ slice_set self.old place None }
    {
        self.entries[place] = Entry {
            stamp: 0,
            number: 0,
        };
    }
}
