// The definitions of a layout.
ghost use Rattle.std.specs.Prelude.{◌≡◌, ◌<◌, [], All, IfSome, Some, length, nat_eq};
ghost use Rattle.std.specs.List.{IsDistinct};
ghost use Rattle.std.proofs.Math.ListN.{get_or};
ghost use Rattle.indexmap.specs.IndexMap.{keys, values};
ghost use Rattle.dpl_calls.specs.Places.{place_among};
ghost use Rattle.dpl_calls.specs.Entries.{IsEntryNear};
ghost use Rattle.dpl_calls.specs.Table.{entries_of};

use crate::body::Body;
use crate::entry::Entry;
use indexmap::IndexMap;

/// What stands outside definitions, and each definition by its number, in the order of the file.
#[derive(Drop)]
pub struct Table {
    pub top: Body,
    pub definitions: IndexMap<u64, Body>,
}

/// A call command: its number among the commands, the definition that it stands in, and the one that
/// it names.
#[derive(Clone, Copy, Debug, PartialEq, Eq)]
pub struct CallSite {
    pub at: u32,
    pub definition: Option<u64>,
    pub called: u64,
}

impl Table {
    /// The entries of a definition; none where no definition has the number.
    pub fn body(&self, number: u64) -> &[Entry]
        ensures value { result.now ≡ entries_of self.now (Some number) }
        ensures near { All IsEntryNear result.now }
    {
        match self.definitions.get(&number) {
            Some(body) => body.as_slice(),
            None => &[],
        }
    }

    /// The place of a definition among the others, in the order of the file.
    #[tactic(auto, using(crate::proofs::Edges::position_is))]
    pub fn place(&self, number: u64) -> Option<usize>
        ensures value { result ≡ place_among number (keys self.now.definitions) }
        ensures within { IfSome result (λ i. i < length self.now.definitions.entries) }
    {
        self.definitions.get_index_of(&number)
    }

    /// How many definitions there are. No two have the same number.
    pub fn count(&self) -> usize
        ensures value { result ≡ length self.now.definitions.entries }
        ensures distinct { IsDistinct nat_eq (keys self.now.definitions) }
    {
        self.definitions.len()
    }

    /// The entries of the definition at a place.
    pub fn body_at(&self, place: usize) -> &[Entry]
        ensures { result.now ≡ get_or (values self.now.definitions) place [] }
    {
        match self.definitions.get_index(place) {
            Some((_, body)) => body.as_slice(),
            None => &[],
        }
    }
}
