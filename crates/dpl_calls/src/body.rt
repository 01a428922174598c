// The parts of a definition.
ghost use Rattle.std.specs.Prelude.{◌≡◌, ◌++◌, [], ◌∷◌, OnOk, OnErr, All};
ghost use Rattle.dpl_calls.specs.Entries.{IsEntryNear};

use crate::entry::Entry;
use std::alloc::{AllocError, Global};
use std::marker::Model;

/// The entries of a definition in their order. Contracts see the list of them; no call of it shifts
/// far enough for a million nested ones to leave 128 bits.
#[derive(Drop)]
pub struct Body {
    entries: Vec<Entry>,
}

impl Model for Body {
    ghost use Rattle.dpl_calls.specs.declared.entry.Entry.{Entry};
    ghost use Rattle.dpl_calls.specs.Entries.{IsEntryNear};
    ghost use Rattle.std.specs.Prelude.{List, All};

    ghost Value = { List Entry };

    ghost view = { λ s. s.entries.items };

    ghost invariant = { λ s. All IsEntryNear s.entries.items };
}

impl Body {
    /// A definition without an entry.
    pub fn new(alloc: Global) -> Body
        ensures { result ≡ [] }
    {
        Body {
            entries: Vec::new(alloc),
        }
    }

    /// Adds an entry. Without memory nothing changes.
    pub fn put(&mut self, entry: Entry) -> Result<(), AllocError>
        requires { IsEntryNear entry }
        ensures ok { OnOk result (self.new ≡ self.old ++ entry ∷ []) }
        ensures err { OnErr result (self.new ≡ self.old) }
    {
        self.entries.push(entry)?;
        Ok(())
    }

    /// The entries in their order; none of their calls shifts by more than 2^106 grid units.
    pub fn as_slice(&self) -> &[Entry]
        ensures value { result.now ≡ self.now }
        ensures near { All IsEntryNear result.now }
    {
        self.entries.as_slice()
    }
}
