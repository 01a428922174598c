//! Writing tops, parents and joins, where a set is made or taken away.

ghost use Rattle.std.specs.Prelude.{◌≡◌, ℕ, ◌<◌, if◌then◌else◌, true, false, None, Some, length, slice_index, slice_index_or};
ghost use Rattle.dpl_laminar.specs.Families.{has};
ghost use Rattle.dpl_laminar.specs.Storing.{circle_of, row_holds, AreBelow, AreOnce, AreApart, AreRows};

use super::members::Members;
use dpl_ring::Ring;

/// Writes the parent of these sets.
pub fn adopt(parents: &mut [Option<u32>], children: &[u32], parent: u32)
    requires { AreBelow children.now (length parents.old) }
    ensures { (i : ℕ) → slice_index_or parents.new i None ≡
        (if has children.now i then Some parent else slice_index_or parents.old i None) }
{
    for child in children {
        parents[*child as usize] = Some(parent);
    }
}

/// Writes the joins of these sets.
pub fn join(all: &mut [(u32, u32)], children: &[u32], joins: &[(u32, u32)])
    requires count { length joins.now ≡ length children.now }
    requires below { AreBelow children.now (length all.old) }
    requires distinct { AreOnce children.now }
    ensures each { (i : ℕ) → i < length children.now →
        slice_index_or all.new (slice_index children.now i) (0, 0)
        ≡ slice_index_or joins.now i (0, 0) }
    ensures others { (c : ℕ) → has children.now c ≡ false →
        slice_index_or all.new c (0, 0) ≡ slice_index_or all.old c (0, 0) }
{
    for (i, child) in children.iter().enumerate() {
        all[*child as usize] = joins[i];
    }
}

/// Makes a set the top of its members.
pub fn lift(tops: &mut [u32], members: &[u32], set: u32)
    requires { AreBelow members.now (length tops.old) }
    ensures { (m : ℕ) → slice_index tops.new m ≡
        (if has members.now m then set else slice_index tops.old m) }
{
    for member in members {
        tops[*member as usize] = set;
    }
}

/// Makes the set with this number the top of its members.
fn lift_set(tops: &mut [u32], rows: &[Members], set: u32)
    requires set { set < length rows.now }
    requires rows { AreRows (length tops.old) rows.now }
    ensures { (m : ℕ) → slice_index tops.new m ≡
        (if row_holds rows.now set m then set else slice_index tops.old m) }
{
    lift(tops, rows[set as usize].as_slice(), set);
}

/// Makes each child of a ring the top of its members.
pub fn lift_all(tops: &mut [u32], rows: &[Members], ring: &Ring, first: u32, count: usize)
    requires ring { length ring.now ≡ length rows.now }
    requires below { (i : ℕ) → i < count →
        slice_index (circle_of ring.now first count) i < length rows.now }
    requires apart { AreApart (length tops.old) rows.now (circle_of ring.now first count) }
    requires rows { AreRows (length tops.old) rows.now }
    ensures inside { (c m : ℕ) → m < length tops.old →
        has (circle_of ring.now first count) c ≡ true → row_holds rows.now c m ≡ true →
        slice_index tops.new m ≡ c }
    ensures outside { (m : ℕ) → m < length tops.old →
        ((c : ℕ) → has (circle_of ring.now first count) c ≡ true → row_holds rows.now c m ≡ false) →
        slice_index tops.new m ≡ slice_index tops.old m }
{
    let mut child = first;
    for _ in 0..count {
        lift_set(tops, rows, child);
        child = ring.next(child);
    }
}

/// Takes the parent from each child of a ring.
pub fn orphan(parents: &mut [Option<u32>], ring: &Ring, first: u32, count: usize)
    requires ring { length ring.now ≡ length parents.old }
    requires below { (i : ℕ) → i < count →
        slice_index (circle_of ring.now first count) i < length parents.old }
    ensures { (i : ℕ) → slice_index_or parents.new i None ≡
        (if has (circle_of ring.now first count) i then None
        else slice_index_or parents.old i None) }
{
    let mut child = first;
    for _ in 0..count {
        parents[child as usize] = None;
        child = ring.next(child);
    }
}
