//! The joins that members have.

ghost use Rattle.std.specs.Prelude.{◌≡◌, ◌≢◌, ◌<◌, ℕ, List, [], Some, length, option_map, OnOk, OnErr};
ghost use Rattle.dpl_laminar.specs.Families.{Sets, load_of};
ghost use Rattle.dpl_dual.specs.declared.crosses.Cross.{Cross};
ghost use Rattle.dpl_flood.specs.declared.nodes.Node.{Node};
ghost use Rattle.dpl_flood.specs.Arenas.{IsJoin, IsLonger, start_of, end_of, turned};
ghost use Rattle.dpl_flood.specs.Joins.{Entries, AreJoins, HaveSeats, IsNoted, IsTied, dist_in, join_at};

use crate::nodes::{Join, Node};
use indexmap::IndexMap;
use std::alloc::{AllocError, Global};
use std::marker::Model;

/// A join between the seats of two members, for any two that have one. Contracts see the list of the entries.
#[derive(Drop)]
pub struct Joins {
    at: IndexMap<(u32, u32), Join>,
}

impl Model for Joins {
    ghost use Rattle.dpl_flood.specs.Joins.{Entries};

    ghost Value = { Entries };

    ghost view = { λ x. x.at.entries };
}

impl Joins {
    /// No two members have one.
    pub fn new(alloc: Global) -> Joins
        ensures { result ≡ [] }
    {
        Joins {
            at: IndexMap::new(alloc),
        }
    }

    /// Notes a join between two members, in place of the one that they had.
    pub fn note(&mut self, nodes: &[Node], join: Join) -> Result<(), AllocError>
        requires first { join.first < length nodes.now }
        requires second { join.second < length nodes.now }
        requires differ { start_of nodes.now join ≢ end_of nodes.now join }
        ensures noted { OnOk result (IsNoted self.old self.new (start_of nodes.now join) (end_of nodes.now join) join) }
        ensures kept { (ways : List Cross) → IsJoin ways nodes.now join → AreJoins ways nodes.now self.old →
            OnOk result (AreJoins ways nodes.now self.new) }
        ensures err { OnErr result (self.new ≡ self.old) }
    {
        let start = nodes[join.first as usize].member;
        let end = nodes[join.second as usize].member;
        if start < end {
            self.at.insert((start, end), join)?;
        } else {
            self.at.insert((end, start), join.turned())?;
        }
        Ok(())
    }

    /// The join from one member to another, if they have one.
    pub fn find(&self, from: u32, to: u32) -> Option<Join>
        ensures { result ≡ join_at self.now from to }
    {
        if to < from {
            match self.at.get(&(to, from)) {
                Some(join) => Some(join.turned()),
                None => None,
            }
        } else {
            self.at.get(&(from, to)).copied()
        }
    }
}

/// Joins are the same from both ends, and stay where nodes are added. The call does nothing.
pub fn joins_stay()
    ensures back { (joins : Entries) (a b : ℕ) → a ≢ b → join_at joins b a ≡ option_map turned (join_at joins a b) }
    ensures stay { (ways : List Cross) (old new : List Node) (joins : Entries) → IsLonger old new →
        AreJoins ways old joins → AreJoins ways new joins }
    ensures seats { (old new : List Node) (seats : List ℕ) → IsLonger old new → HaveSeats old seats → HaveSeats new seats }
    ensures far { (ways : List Cross) (old new : List Node) (joins : Entries) (f : Sets) (a b : ℕ) → IsLonger old new →
        AreJoins ways old joins → dist_in ways new joins f a b ≡ dist_in ways old joins f a b }
{}

/// Two members are as far from each other as the other way round, and those whose load is as much have a join. The call
/// does nothing.
pub fn joins_are_far()
    ensures same { (ways : List Cross) (nodes : List Node) (joins : Entries) (f : Sets) (a b : ℕ) →
        dist_in ways nodes joins f a b ≡ dist_in ways nodes joins f b a }
    ensures tied { (ways : List Cross) (nodes : List Node) (joins : Entries) (f : Sets) (a b : ℕ) →
        load_of f a b ≡ dist_in ways nodes joins f a b → IsTied ways nodes joins f a b }
{}
