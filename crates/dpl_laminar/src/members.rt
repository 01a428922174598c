//! Which members a set holds.

ghost use Rattle.std.specs.Prelude.{◌≡◌, ℕ, ◌<◌, ◌⊎◌, true, false, [], ◌∷◌, length, slice_index, slice_index_or, IfOk};
ghost use Rattle.std.specs.List.{list_any};
ghost use Rattle.std.specs.List.Sorted.{IsStrictlyIncreasing};
ghost use Rattle.dpl_laminar.specs.Families.{has};
ghost use Rattle.dpl_laminar.specs.Storing.{row_holds, AreBelow, AreRows, IsNameOf};

use std::alloc::{AllocError, Global};
use std::marker::Model;

/// A set of members. Contracts see it as the list of those that are held.
#[derive(Drop)]
pub struct Members {
    held: Vec<u32>,
}

impl Model for Members {
    ghost use Rattle.std.specs.Prelude.{List, ℕ};

    ghost Value = { List ℕ };

    ghost view = { λ s. s.held.items };
}

impl Members {
    /// No member.
    pub fn none(alloc: Global) -> Members
        ensures { result ≡ [] }
    {
        Members {
            held: Vec::new(alloc),
        }
    }

    /// One member alone.
    pub fn single(alloc: Global, member: u32) -> Result<Members, AllocError>
        ensures { IfOk result (λ row. row ≡ member ∷ []) }
    {
        let held = Vec::from_slice(alloc, &[member])?;
        Ok(Members { held })
    }

    /// The members of these sets together, ascending.
    pub fn union(alloc: Global, rows: &[Members], sets: &[u32]) -> Result<Members, AllocError>
        requires { AreBelow sets.now (length rows.now) }
        ensures rising { IfOk result (λ row. IsStrictlyIncreasing row) }
        ensures held { IfOk result (λ row. (m : ℕ) →
            has row m ≡ list_any (λ set. row_holds rows.now set m) sets.now) }
    {
        let mut held = joined(alloc, rows, sets)?;
        held.sort_unstable();
        held.dedup();
        Ok(Members { held })
    }

    /// Whether a member is held.
    pub fn holds(&self, member: u32) -> bool
        requires { IsStrictlyIncreasing self.now }
        ensures { result ≡ has self.now member }
    {
        is_among(&self.held, member)
    }

    /// The first member of a set that has one: the least, where they ascend.
    pub fn first(&self) -> u32
        requires { 0 < length self.now }
        ensures { result ≡ slice_index self.now 0 }
    {
        self.held[0]
    }

    /// The held members.
    pub fn as_slice(&self) -> &[u32]
        ensures { result.now ≡ self.now }
    {
        self.held.as_slice()
    }

    /// Takes all members out, and gives their memory back.
    pub fn clear(&mut self)
        ensures { self.new ≡ [] }
    {
        self.held.clear();
        self.held.shrink_to_fit();
    }
}

/// Whether a number is one of those that ascend.
fn is_among(numbers: &[u32], number: u32) -> bool
    requires { IsStrictlyIncreasing numbers.now }
    ensures { result ≡ has numbers.now number }
{
    numbers.binary_search(&number).is_ok()
}

/// The members of these sets, one set after another.
fn joined(alloc: Global, rows: &[Members], sets: &[u32]) -> Result<Vec<u32>, AllocError>
    requires { AreBelow sets.now (length rows.now) }
    ensures { IfOk result (λ list. (m : ℕ) →
        has list.items m ≡ list_any (λ set. row_holds rows.now set m) sets.now) }
{
    let mut held = Vec::new(alloc);
    for set in sets {
        held.extend_from_slice(rows[*set as usize].as_slice())?;
    }
    Ok(held)
}

/// What a set made of these and others is numbered by: the greater one of the least members of two
/// sets that are apart. No set that lives beside them is numbered by it.
pub fn name_of(rows: &[Members], size: usize, x: usize, y: usize) -> usize
    requires first { x < length rows.now }
    requires second { y < length rows.now }
    requires rows { AreRows size rows.now }
    requires any_first { (m : ℕ) × (m < size) × (row_holds rows.now x m ≡ true) }
    requires any_second { (m : ℕ) × (m < size) × (row_holds rows.now y m ≡ true) }
    requires apart { (m : ℕ) → m < size →
        row_holds rows.now x m ≡ true → row_holds rows.now y m ≡ false }
    ensures below { result < size }
    ensures name { IsNameOf size (row_holds rows.now) result x y ⊎
        IsNameOf size (row_holds rows.now) result y x }
{
    let first = rows[x].first();
    let second = rows[y].first();
    if first < second {
        return second as usize;
    }
    first as usize
}
