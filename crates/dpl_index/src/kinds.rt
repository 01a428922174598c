// Kinds of items.
ghost use Rattle.std.specs.Prelude.{◌≡◌, ◌↔◌, true, ℕ, Some};
ghost use Rattle.dpl_index.specs.Kinds.{kind_of};

/// The kind of an item by its number; 0 where none is given.
pub fn kind_at(kinds: &[u32], i: usize) -> u32
    ensures { result ≡ kind_of kinds.now i }
{
    match kinds.get(i) {
        None => 0,
        Some(kind) => *kind,
    }
}

/// The kind of two parts of some items, if each has one, and both have the same.
pub fn common(a: Option<u32>, b: Option<u32>) -> Option<u32>
    ensures first { (kind : ℕ) → result ≡ Some kind → a ≡ Some kind }
    ensures second { (kind : ℕ) → result ≡ Some kind → b ≡ Some kind }
{
    match a {
        None => None,
        Some(kind) => { if is_of(b, kind) { Some(kind) } else { None } }
    }
}

/// Whether all of some items are of a kind.
pub fn is_of(all: Option<u32>, kind: u32) -> bool
    ensures { (result ≡ true) ↔ (all ≡ Some kind) }
{
    match all {
        None => false,
        Some(own) => own == kind,
    }
}
