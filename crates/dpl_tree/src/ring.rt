//! The children of a set around its ring.

ghost use Rattle.std.specs.Prelude.{◌≡◌, ◌≢◌, ℕ, ◌+◌, ◌-◌, ◌*◌, ◌<◌, ◌≤◌, None, Some, true};
ghost use Rattle.std.specs.Prelude.{length, slice_index, IfOk};
ghost use Rattle.dpl_laminar.specs.declared.TheConstants.{MOST_MEMBERS};
ghost use Rattle.dpl_laminar.specs.Storing.{sets_of};
ghost use Rattle.dpl_tree.specs.steps.Rounds.{IsRingFrom, IsTurned};

use dpl_laminar::{Family, MOST_MEMBERS};
use std::alloc::{AllocError, Global};

/// Sets around a ring, each with the join to the next one.
#[derive(Drop)]
pub struct Round {
    pub sets: Vec<u32>,
    pub joins: Vec<(u32, u32)>,
}

/// The child of a set that holds a member.
pub fn child_with(family: &Family, set: u32, member: u32) -> u32
    requires member { member < (sets_of family.now).size }
    requires small { (sets_of family.now).size ≤ MOST_MEMBERS }
    requires above { (sets_of family.now).size ≤ set }
    requires below { set < 2 * (sets_of family.now).size }
    requires live { (sets_of family.now).live set ≡ true }
    requires held { (sets_of family.now).holds set member ≡ true }
    ensures parent { (sets_of family.now).parent result ≡ Some set }
    ensures held { (sets_of family.now).holds result member ≡ true }
    ensures live { (sets_of family.now).live result ≡ true }
    ensures below { result < 2 * (sets_of family.now).size }
{
    let _parent = family.parent(set);
    let _top = family.tops(member);
    let mut child = member;
    for _ in 0..2 * MOST_MEMBERS {
        match family.parent(child) {
            Some(parent) => {
                if parent == set {
                    return child;
                }
                child = parent;
            }
            None => unreachable!(),
        }
    }
    unreachable!()
}

/// The children of a set from one of them on.
pub fn round_from(alloc: Global, family: &Family, first: u32) -> Result<Round, AllocError>
    requires small { (sets_of family.now).size ≤ MOST_MEMBERS }
    requires below { first < 2 * (sets_of family.now).size }
    requires live { (sets_of family.now).live first ≡ true }
    requires inner { (sets_of family.now).parent first ≢ None }
    ensures { IfOk result (λ r. IsRingFrom (sets_of family.now) first r.sets.items r.joins.items) }
{
    let _parent = family.parent(first);
    let mut sets = Vec::new(alloc);
    let mut joins = Vec::new(alloc);
    sets.push(first)?;
    let (mut child, s, t) = family.child_after(first);
    joins.push((s, t))?;
    for _ in 0..2 * MOST_MEMBERS {
        if child == first {
            return Ok(Round { sets, joins });
        }
        sets.push(child)?;
        let (next, s, t) = family.child_after(child);
        joins.push((s, t))?;
        child = next;
    }
    unreachable!()
}

/// The set at a place of a ring that is walked the other way around.
fn set_at(sets: &[u32], place: usize) -> u32
    requires { place < length sets.now }
    ensures first { place ≡ 0 → result ≡ slice_index sets.now 0 }
    ensures others { 0 < place → result ≡ slice_index sets.now (length sets.now - place) }
{
    if place == 0 {
        sets[0]
    } else {
        sets[sets.len() - place]
    }
}

/// The same ring the other way around, from the same set on.
pub fn turned(alloc: Global, sets: &[u32], joins: &[(u32, u32)]) -> Result<Round, AllocError>
    requires { length joins.now ≡ length sets.now }
    ensures { IfOk result (λ r. IsTurned sets.now joins.now r.sets.items r.joins.items) }
{
    let count = sets.len();
    let mut others = Vec::new(alloc);
    let mut backwards = Vec::new(alloc);
    for i in 0..count {
        others.push(set_at(sets, i))?;
        let (s, t) = joins[count - 1 - i];
        backwards.push((t, s))?;
    }
    Ok(Round {
        sets: others,
        joins: backwards,
    })
}

/// The place of a set that stands in a ring.
pub fn place_of(sets: &[u32], set: u32) -> usize
    requires { (i : ℕ) × (i < length sets.now) × (slice_index sets.now i ≡ set) }
    ensures below { result < length sets.now }
    ensures value { slice_index sets.now result ≡ set }
{
    for i in 0..sets.len() {
        if sets[i] == set {
            return i;
        }
    }
    unreachable!()
}
