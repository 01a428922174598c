//! Pairs along the way to the root.

ghost use Rattle.std.specs.Prelude.{◌≡◌, ◌≢◌, ℕ, ◌+◌, ◌*◌, ◌<◌, ◌≤◌, Option, length, slice_index};
ghost use Rattle.dpl_laminar.specs.Storing.{sets_of};
ghost use Rattle.dpl_tree.specs.Metrics.{AreSymmetric};
ghost use Rattle.dpl_tree.specs.steps.Climbs.{IsWay, IsClimbed, IsReleased};
ghost use Rattle.dpl_tree.specs.steps.Forests.{IsPair, IsExposed, free, outer};
ghost use Rattle.dpl_tree.specs.steps.Growth.{AreTightBy, IsStageBy};
ghost use Rattle.dpl_tree.specs.steps.Opened.{lists_of, forest_in};
ghost use Rattle.dpl_tree.specs.Stages.{Ends};
ghost use Rattle.dpl_tree.specs.Views.{mate_in, forest_of, place_in, IsSized};

use super::pairs::{exit_of, pair, part};
use super::tree::Tree;
use dpl_laminar::Family;

/// Pairs s with t, and along the way to the root each inner member with the next outer one.
fn augment(family: &Family, mates: &mut [Option<u32>], tree: &Tree, s: u32, t: u32)
    requires mates { length mates.old ≡ (sets_of family.now).size }
    requires sized { IsSized (sets_of family.now).size tree.now }
    requires begun { (dist : ℕ → ℕ → ℕ) × (was : ℕ → Option ℕ) ×
        AreSymmetric (sets_of family.now).size dist ×
        IsWay (sets_of family.now).size (sets_of family.now) dist
        (forest_in (lists_of tree.now) was) (mate_in mates.old) (s, t) }
    ensures { (dist : ℕ → ℕ → ℕ) (was : ℕ → Option ℕ) →
        AreSymmetric (sets_of family.now).size dist →
        IsWay (sets_of family.now).size (sets_of family.now) dist
        (forest_in (lists_of tree.now) was) (mate_in mates.old) (s, t) →
        IsClimbed (sets_of family.now).size (sets_of family.now) dist
        (forest_in (lists_of tree.now) was) (mate_in mates.old) (s, t) (mate_in mates.new) }
{
    let mut outer = s;
    let mut other = t;
    'climb: loop {
        match exit_of(family, mates, family.tops(outer)) {
            Some((exit, mate)) => {
                let (above, entry) = tree.link(family.tops(mate));
                part(mates, exit, mate);
                pair(mates, outer, other);
                outer = above;
                other = entry;
            }
            None => {
                pair(mates, outer, other);
                return;
            }
        }
    }
}

/// Frees the top of t, an outer member: along the way to the root each inner member becomes the mate of the next outer one.
fn release(family: &Family, mates: &mut [Option<u32>], tree: &Tree, t: u32)
    requires mates { length mates.old ≡ (sets_of family.now).size }
    requires sized { IsSized (sets_of family.now).size tree.now }
    requires stage { (dist : ℕ → ℕ → ℕ) ×
        IsStageBy (sets_of family.now) (forest_of tree.now mates.old) dist }
    requires below { t < (sets_of family.now).size }
    requires is_outer { place_in tree.now.labels.items ((sets_of family.now).top t) ≡ outer }
    ensures { (dist : ℕ → ℕ → ℕ) →
        IsStageBy (sets_of family.now) (forest_of tree.now mates.old) dist →
        IsReleased (sets_of family.now).size (sets_of family.now) dist
        (forest_of tree.now mates.old) t (mate_in mates.new) }
{
    match exit_of(family, mates, family.tops(t)) {
        Some((exit, mate)) => {
            let (above, entry) = tree.link(family.tops(mate));
            part(mates, exit, mate);
            augment(family, mates, tree, above, entry);
        }
        None => {}
    }
}

/// Pairs s with t, outer members of different trees, and along the ways from both to the roots each inner member with the next
/// outer one. Both trees are gone.
pub fn join_trees(family: &Family, mates: &mut [Option<u32>], tree: &mut Tree, s: u32, t: u32)
    requires mates { length mates.old ≡ (sets_of family.now).size }
    requires sized { IsSized (sets_of family.now).size tree.old }
    requires pair { IsPair (sets_of family.now).size (sets_of family.now)
        (place_in tree.old.labels.items) outer s t }
    requires apart { slice_index tree.old.trees.items ((sets_of family.now).top s) ≢
        slice_index tree.old.trees.items ((sets_of family.now).top t) }
    requires tight { (dist : ℕ → ℕ → ℕ) ×
        AreTightBy (sets_of family.now) (forest_of tree.old mates.old) s t dist }
    ensures ends { (dist : ℕ → ℕ → ℕ) (one two : ℕ) →
        AreTightBy (sets_of family.now) (forest_of tree.old mates.old) s t dist →
        one ≡ slice_index tree.old.trees.items ((sets_of family.now).top s) →
        two ≡ slice_index tree.old.trees.items ((sets_of family.now).top t) →
        Ends (sets_of family.now).size dist (sets_of family.now) one two
        (forest_of tree.old mates.old) (forest_of tree.new mates.new) }
    ensures sized { IsSized (sets_of family.now).size tree.new }
{
    let one = tree.trees[family.tops(s) as usize];
    let two = tree.trees[family.tops(t) as usize];
    release(family, mates, tree, t);
    augment(family, mates, tree, s, t);
    tree.dissolve(one, two);
}
