//! Pairs of members.

ghost use Rattle.std.specs.Prelude.{◌≡◌, ℕ, ◌*◌, ◌<◌, true, slice_index_or, slice_set, length, IfSome, MatchOption};
ghost use Rattle.dpl_laminar.specs.Storing.{sets_of};
ghost use Rattle.dpl_tree.specs.Mates.{kept_outside, DropsInside};
ghost use Rattle.dpl_tree.specs.steps.Joins.{is_end};
ghost use Rattle.dpl_tree.specs.Views.{mate_in};

use dpl_laminar::Family;

/// Makes two members each other's mates.
pub fn pair(mates: &mut [Option<u32>], s: u32, t: u32)
    requires first { s < length mates.old }
    requires second { t < length mates.old }
    ensures { mates.new ≡ slice_set (slice_set mates.old s (Some t)) t (Some s) }
{
    mates[s as usize] = Some(t);
    mates[t as usize] = Some(s);
}

/// Gives up a pair.
pub fn part(mates: &mut [Option<u32>], s: u32, t: u32)
    requires first { s < length mates.old }
    requires second { t < length mates.old }
    ensures { mates.new ≡ slice_set (slice_set mates.old s None) t None }
{
    mates[s as usize] = None;
    mates[t as usize] = None;
}

/// The member of a top set that has a mate, and its mate. It costs the members of the set.
pub fn exit_of(family: &Family, mates: &[Option<u32>], top: u32) -> Option<(u32, u32)>
    requires count { length mates.now ≡ (sets_of family.now).size }
    requires top { top < 2 * (sets_of family.now).size }
    ensures { MatchOption result
        ((m : ℕ) → m < (sets_of family.now).size → (sets_of family.now).top m ≡ top →
        mate_in mates.now m ≡ None)
        (λ p. (p.0 < (sets_of family.now).size) × ((sets_of family.now).top p.0 ≡ top) ×
        (mate_in mates.now p.0 ≡ Some p.1)) }
{
    let members = family.members(top);
    for i in 0..members.len() {
        let member = members[i];
        if let Some(mate) = mates[member as usize] {
            if family.tops(member) == top {
                return Some((member, mate));
            }
        }
    }
    None
}

/// What stays of the mate of a member: none of one top with it.
fn kept(family: &Family, member: u32, mate: Option<u32>) -> Option<u32>
    requires member { member < (sets_of family.now).size }
    requires mate { IfSome mate (λ t. t < (sets_of family.now).size) }
    ensures { result ≡ kept_outside (sets_of family.now) member mate }
{
    match mate {
        Some(other) => {
            if family.tops(member) == family.tops(other) {
                None
            } else {
                Some(other)
            }
        }
        None => None,
    }
}

/// Gives up the mate of a member that is of one top with it.
fn drop_own(family: &Family, mates: &mut [Option<u32>], member: u32)
    requires count { length mates.old ≡ (sets_of family.now).size }
    requires member { member < length mates.old }
    requires mate { IfSome (mate_in mates.old member) (λ t. t < (sets_of family.now).size) }
    ensures { mates.new ≡ slice_set mates.old member
        (kept_outside (sets_of family.now) member (mate_in mates.old member)) }
{
    let mate = mates[member as usize];
    mates[member as usize] = kept(family, member, mate);
}

/// Gives up the pairs that lie inside one top set, where each member of one is an end of these joins.
pub fn drop_inside(family: &Family, mates: &mut [Option<u32>], joins: &[(u32, u32)])
    requires count { length mates.old ≡ (sets_of family.now).size }
    requires from { (i : ℕ) → i < length joins.now → (slice_index_or joins.now i (0, 0)).0 <
        length mates.old }
    requires to { (i : ℕ) → i < length joins.now → (slice_index_or joins.now i (0, 0)).1 <
        length mates.old }
    requires range { (m t : ℕ) → m < length mates.old → mate_in mates.old m ≡ Some t → t <
        length mates.old }
    requires ends { (m t : ℕ) → m < length mates.old → mate_in mates.old m ≡ Some t →
        (sets_of family.now).top m ≡ (sets_of family.now).top t → is_end joins.now m ≡ true }
    ensures { DropsInside (length mates.old) (sets_of family.now) (mate_in mates.old)
        (mate_in mates.new) }
{
    for i in 0..joins.len() {
        let (s, t) = joins[i];
        drop_own(family, mates, s);
        drop_own(family, mates, t);
    }
}
