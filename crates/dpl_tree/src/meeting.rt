//! Two ways to the root from a tight pair of outer members of one tree: the sets up to where they
//! meet become one.

ghost use Rattle.std.specs.Prelude.{◌≡◌, ◌≢◌, ℕ, ◌+◌, ◌*◌, ◌<◌, ◌≤◌, ◌++◌, ◌∷◌, true, length};
ghost use Rattle.std.specs.Prelude.{slice_index, slice_index_or, if◌then◌else◌, IfOk, reverse};
ghost use Rattle.dpl_laminar.specs.declared.TheConstants.{MOST_MEMBERS};
ghost use Rattle.dpl_laminar.specs.Families.{has};
ghost use Rattle.dpl_laminar.specs.Storing.{sets_of};
ghost use Rattle.dpl_tree.specs.steps.Forests.{outer, inner, free};
ghost use Rattle.dpl_tree.specs.Mates.{IsExit, loads};
ghost use Rattle.dpl_tree.specs.steps.Growth.{IsStageBy};
ghost use Rattle.dpl_tree.specs.steps.Joins.{AreClimbing, ways, tops_from};
ghost use Rattle.dpl_tree.specs.Views.{mate_in, forest_of, place_in, IsSized};

use super::pairs::exit_of;
use super::tree::{Label, Tree};
use dpl_laminar::Family;
use std::alloc::{AllocError, Global};

/// The joins of the tree's sets along a way up and down again, and the set at its top.
#[derive(Drop)]
pub struct Meeting {
    /// Downwards, the last one first.
    pub left: Vec<(u32, u32)>,
    /// Upwards.
    pub right: Vec<(u32, u32)>,
    pub meet: u32,
}

/// The step from an outer set to the next outer one towards the root.
#[derive(Clone, Copy)]
pub struct Climb {
    pub exit: u32,
    pub mate: u32,
    pub entry: u32,
    pub above: u32,
}

/// The step up from an outer set that has a pair, as each but the root has.
pub fn step_up(family: &Family, mates: &[Option<u32>], tree: &Tree, set: u32) -> Climb
    requires mates { length mates.now ≡ (sets_of family.now).size }
    requires small { (sets_of family.now).size ≤ MOST_MEMBERS }
    requires sized { IsSized (sets_of family.now).size tree.now }
    requires stage { (dist : ℕ → ℕ → ℕ) ×
        IsStageBy (sets_of family.now) (forest_of tree.now mates.now) dist }
    requires is_outer { place_in tree.now.labels.items set ≡ outer }
    requires paired { (m : ℕ) × (t : ℕ) × IsExit (sets_of family.now).size (sets_of family.now)
        (mate_in mates.now) set m t }
    ensures exit { IsExit (sets_of family.now).size (sets_of family.now) (mate_in mates.now) set
        result.exit result.mate }
    ensures above { result.above ≡ (forest_of tree.now mates.now).above
        ((sets_of family.now).top result.mate) }
    ensures entry { result.entry ≡ (forest_of tree.now mates.now).entry
        ((sets_of family.now).top result.mate) }
{
    match exit_of(family, mates, set) {
        Some((exit, mate)) => {
            let (above, entry) = tree.link(family.tops(mate));
            Climb {
                exit,
                mate,
                entry,
                above,
            }
        }
        None => unreachable!(),
    }
}

/// Climbs from the sets of s and t in one tree, from the one with the greater rank first, until they
/// meet.
pub fn meet(
    alloc: Global,
    family: &Family,
    mates: &[Option<u32>],
    tree: &Tree,
    s: u32,
    t: u32,
) -> Result<Meeting, AllocError>
    requires mates { length mates.now ≡ (sets_of family.now).size }
    requires sized { IsSized (sets_of family.now).size tree.now }
    requires stage { (dist : ℕ → ℕ → ℕ) ×
        IsStageBy (sets_of family.now) (forest_of tree.now mates.now) dist }
    requires s { s < (sets_of family.now).size }
    requires t { t < (sets_of family.now).size }
    requires s_outer { place_in tree.now.labels.items ((sets_of family.now).top s) ≡ outer }
    requires t_outer { place_in tree.now.labels.items ((sets_of family.now).top t) ≡ outer }
    requires same { slice_index tree.now.trees.items ((sets_of family.now).top s) ≡
        slice_index tree.now.trees.items ((sets_of family.now).top t) }
    ensures { IfOk result (λ r. (dist : ℕ → ℕ → ℕ) →
        IsStageBy (sets_of family.now) (forest_of tree.now mates.now) dist →
        AreClimbing (sets_of family.now).size (sets_of family.now) dist
        (forest_of tree.now mates.now) (s, t) (ways r.left.items r.right.items r.meet r.meet)) }
{
    let mut left = Vec::new(alloc);
    let mut right = Vec::new(alloc);
    let mut a = family.tops(s);
    let mut b = family.tops(t);
    'climb: loop {
        if a == b {
            return Ok(Meeting {
                left,
                right,
                meet: a,
            });
        }
        let rank_a = tree.rank(a);
        let rank_b = tree.rank(b);
        if rank_a < rank_b {
            let up = step_up(family, mates, tree, b);
            right.push((up.exit, up.mate))?;
            right.push((up.entry, up.above))?;
            b = family.tops(up.above);
        } else {
            let up = step_up(family, mates, tree, a);
            left.push((up.mate, up.exit))?;
            left.push((up.above, up.entry))?;
            a = family.tops(up.above);
        }
    }
}

/// The joins all around, from the set where the ways meet.
pub fn around(meeting: Meeting, s: u32, t: u32) -> Result<Vec<(u32, u32)>, AllocError>
    ensures { IfOk result (λ r. r.items ≡
        reverse meeting.left.items ++ (s, t) ∷ meeting.right.items) }
{
    let mut joins = meeting.left;
    joins.reverse();
    joins.push((s, t))?;
    for i in 0..meeting.right.len() {
        joins.push(meeting.right[i])?;
    }
    Ok(joins)
}

/// The tops that joins lead from.
pub fn tops_of(alloc: Global, family: &Family, joins: &[(u32, u32)]) -> Result<Vec<u32>, AllocError>
    requires { (i : ℕ) → i < length joins.now → (slice_index_or joins.now i (0, 0)).0 <
        (sets_of family.now).size }
    ensures { IfOk result (λ r. r.items ≡ tops_from (sets_of family.now) joins.now) }
{
    let mut tops = Vec::new(alloc);
    for i in 0..joins.len() {
        let (from, _) = joins[i];
        tops.push(family.tops(from))?;
    }
    Ok(tops)
}
