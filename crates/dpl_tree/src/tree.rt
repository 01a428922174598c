//! The alternating tree of one stage.

ghost use Rattle.std.specs.Prelude.{◌≡◌, ◌≢◌, ℕ, ◌<◌, ◌≤◌, ◌⊎◌, length, slice_index, slice_index_or};
ghost use Rattle.std.specs.Prelude.{All, IfOk};
ghost use Rattle.dpl_laminar.specs.declared.TheConstants.{MOST_MEMBERS};
ghost use Rattle.dpl_laminar.specs.Storing.{sets_of};
ghost use Rattle.dpl_tree.specs.steps.Forests.{free};
ghost use Rattle.dpl_tree.specs.steps.Growth.{AreRoots};
ghost use Rattle.dpl_tree.specs.Views.{place_in};

use dpl_laminar::Family;
use std::alloc::{AllocError, Global};

/// How a top set stands in the tree.
#[derive(Clone, Copy, PartialEq, Eq)]
pub enum Label {
    Free,
    Outer,
    Inner,
}

/// By the numbers of the sets: the label, a rank that rises away from the root, for an inner set the outer member and its
/// own member that lead to it, and the number of the tree, which is that of a member of its root.
#[derive(Drop)]
pub struct Tree {
    pub labels: Vec<Label>,
    pub ranks: Vec<u64>,
    pub links: Vec<(u32, u32)>,
    pub trees: Vec<u32>,
}

impl Tree {
    /// A tree for each of some members: its top alone, an outer set. The number of the tree is that of the member.
    pub fn of_roots(
        alloc: Global,
        family: &Family,
        members: &[u32],
        n: usize,
    ) -> Result<Tree, AllocError>
        requires size { n ≡ (sets_of family.now).size }
        requires small { n ≤ MOST_MEMBERS }
        requires members { All (λ m. m < (sets_of family.now).size) members.now }
        ensures { IfOk result (AreRoots (sets_of family.now) members.now) }
    {
        let sets = 2 * n;
        let mut labels = vec![in alloc; Label::Free; sets]?;
        let ranks = vec![in alloc; 0; sets]?;
        let links = vec![in alloc; (0, 0); sets]?;
        let mut trees = vec![in alloc; 0; sets]?;
        for i in 0..members.len() {
            let top = family.tops(members[i]) as usize;
            labels[top] = Label::Outer;
            trees[top] = members[i];
        }
        Ok(Tree {
            labels,
            ranks,
            links,
            trees,
        })
    }

    /// Takes the trees with two numbers away.
    pub fn dissolve(&mut self, one: u32, two: u32)
        requires { length self.old.trees.items ≡ length self.old.labels.items }
        ensures gone { (i : ℕ) → (slice_index self.old.trees.items i ≡ one) ⊎ (slice_index self.old.trees.items i ≡ two) →
            place_in self.new.labels.items i ≡ free }
        ensures others { (i : ℕ) → slice_index self.old.trees.items i ≢ one → slice_index self.old.trees.items i ≢ two →
            place_in self.new.labels.items i ≡ place_in self.old.labels.items i }
        ensures rest { self.new ≡ record self.old { labels = self.new.labels } }
        ensures count { length self.new.labels.items ≡ length self.old.labels.items }
    {
        for i in 0..self.labels.len() {
            if self.trees[i] == one || self.trees[i] == two {
                self.labels[i] = Label::Free;
            }
        }
    }

    /// How a set stands in the tree.
    pub fn label(&self, set: u32) -> Label
        requires { set < length self.now.labels.items }
        ensures { result ≡ slice_index_or self.now.labels.items set Label.Free }
    {
        self.labels[set as usize]
    }

    /// The outer member and the own member that lead to an inner set.
    pub fn link(&self, set: u32) -> (u32, u32)
        requires { set < length self.now.links.items }
        ensures { result ≡ slice_index_or self.now.links.items set (0, 0) }
    {
        self.links[set as usize]
    }

    /// How far a set stands from the root.
    pub fn rank(&self, set: u32) -> u64
        requires { set < length self.now.ranks.items }
        ensures { result ≡ slice_index self.now.ranks.items set }
    {
        self.ranks[set as usize]
    }
}
