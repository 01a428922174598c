//! A family and its calls.

ghost use Rattle.std.specs.Prelude.{◌≡◌, ◌≢◌, ◌↔◌, ℕ, ◌+◌, ◌*◌, ◌<◌, ◌≤◌, ◌^◌, All, OnErr, true, None, pos, ◌+ℤ◌, ◌≤ℤ◌, IfOk};
ghost use Rattle.dpl_laminar.specs.declared.TheConstants.{MOST_MEMBERS};
ghost use Rattle.dpl_laminar.specs.Families.{IsFamily, AreReached, has, members_of};
ghost use Rattle.dpl_laminar.specs.Changes.{IsSingles, AreJoined, IsShrunk, IsExpanded, IsNext};
ghost use Rattle.dpl_laminar.specs.Storing.{sets_of};

use super::members::{Members, name_of};
use super::{Steps, releasing, rings, starting, values};
use dpl_ring::Ring;
use std::alloc::{AllocError, Global};
use std::marker::Model;
use std::sync::ledger::Ledger;

/// Nested odd sets of the members below a number, each set with a value.
#[derive(Drop)]
pub struct Family {
    size: usize,
    // By the numbers of the sets. A number without a set has an empty row.
    live: Vec<bool>,
    rows: Vec<Members>,
    values: Vec<u64>,
    parents: Vec<Option<u32>>,
    // One child of each set, and how many there are around.
    firsts: Vec<u32>,
    counts: Vec<usize>,
    // From each child to the next one around, with the join of the two.
    ring: Ring,
    joins: Vec<(u32, u32)>,
    // By the members.
    tops: Vec<u32>,
}

impl Model for Family {
    ghost use Rattle.dpl_laminar.specs.Storing.{Stored, IsKept};

    ghost Value = { Stored };

    ghost view = { λ f. record {
      size = f.size;
      live = f.live.items;
      rows = f.rows.items;
      values = f.values.items;
      parents = f.parents.items;
      firsts = f.firsts.items;
      counts = f.counts.items;
      ring = f.ring;
      joins = f.joins.items;
      tops = f.tops.items;
    } };

    ghost invariant = { λ f. IsKept (record {
      size = f.size;
      live = f.live.items;
      rows = f.rows.items;
      values = f.values.items;
      parents = f.parents.items;
      firsts = f.firsts.items;
      counts = f.counts.items;
      ring = f.ring;
      joins = f.joins.items;
      tops = f.tops.items;
    }) };
}

impl Family {
    /// Each of the members below n alone, with value 0.
    pub fn new(alloc: Global, n: u32) -> Result<Family, AllocError>
        requires { n ≤ MOST_MEMBERS }
        ensures singles { IfOk result (λ f. IsSingles n (sets_of f)) }
        ensures family { IfOk result (λ f. IsFamily (sets_of f)) }
    {
        let size = n as usize;
        let live = starting::first_half(alloc, size)?;
        let rows = starting::single_rows(alloc, size)?;
        let values = starting::filled(alloc, 0, 2 * size)?;
        let parents = starting::filled(alloc, None, 2 * size)?;
        let firsts = starting::filled(alloc, 0, 2 * size)?;
        let counts = starting::filled(alloc, 0, 2 * size)?;
        let ring = Ring::new(alloc, 2 * n)?;
        let joins = starting::filled(alloc, (0, 0), 2 * size)?;
        let tops = starting::ascending(alloc, size)?;
        Ok(Family {
            size,
            live,
            rows,
            values,
            parents,
            firsts,
            counts,
            ring,
            joins,
            tops,
        })
    }

    /// Makes a new top of these tops, with value 0, and gives its number. `joins[i]` is a member of
    /// child `i` and one of the next child around. A call costs a step.
    pub fn shrink<L: Ledger>(
        &mut self,
        alloc: Global,
        children: &[u32],
        joins: &[(u32, u32)],
        steps: &mut Steps<L>,
    ) -> Result<u32, AllocError>
        requires { AreJoined (sets_of self.old) children.now joins.now }
        ensures ok { IfOk result (λ set.
            IsShrunk (sets_of self.old) children.now joins.now set (sets_of self.new)) }
        ensures err { OnErr result (self.new ≡ self.old) }
        ensures family { IsFamily (sets_of self.new) }
        ensures steps { steps.new ≡ steps.old + 1 }
    {
        steps.tick(); // A refused call counts too.
        let members = Members::union(alloc, &self.rows, children)?;
        let name = name_of(
            &self.rows,
            self.size,
            children[0] as usize,
            children[1] as usize,
        );
        let set = self.size + name;
        releasing::lift(&mut self.tops, members.as_slice(), set as u32);
        releasing::adopt(&mut self.parents, children, set as u32);
        releasing::join(&mut self.joins, children, joins);
        rings::tie(&mut self.ring, children);
        self.rows[set] = members;
        self.firsts[set] = children[0];
        self.counts[set] = children.len();
        self.live[set] = true;
        Ok(set as u32)
    }

    /// Takes a top of value 0 away. Its children become tops. A call costs a step.
    pub fn expand<L: Ledger>(&mut self, set: u32, steps: &mut Steps<L>)
        requires above { (sets_of self.old).size ≤ set }
        requires live { (sets_of self.old).live set ≡ true }
        requires top { (sets_of self.old).parent set ≡ None }
        requires value { (sets_of self.old).value set ≡ 0 }
        ensures value { IsExpanded (sets_of self.old) set (sets_of self.new) }
        ensures family { IsFamily (sets_of self.new) }
        ensures steps { steps.new ≡ steps.old + 1 }
    {
        steps.tick();
        let at = set as usize;
        let first = self.firsts[at];
        let count = self.counts[at];
        releasing::lift_all(&mut self.tops, &self.rows, &self.ring, first, count);
        releasing::orphan(&mut self.parents, &self.ring, first, count);
        rings::untie(&mut self.ring, first, count);
        let row = &mut self.rows[at];
        row.clear();
        self.counts[at] = 0;
        self.live[at] = false;
    }

    /// Adds to the value of a live set. A call costs a step.
    pub fn raise<L: Ledger>(&mut self, set: u32, by: i64, steps: &mut Steps<L>)
        requires live { (sets_of self.old).live set ≡ true }
        requires least { pos 0 ≤ℤ (pos ((sets_of self.old).value set) +ℤ by) }
        requires most { (pos ((sets_of self.old).value set) +ℤ by) ≤ℤ pos (2 ^ 50) }
        ensures value { pos ((sets_of self.new).value set)
            ≡ pos ((sets_of self.old).value set) +ℤ by }
        ensures others { (i : ℕ) → i ≢ set →
            (sets_of self.new).value i ≡ (sets_of self.old).value i }
        ensures rest { sets_of self.new ≡ record (sets_of self.old) {
          value =
              (sets_of self.new).value;
        } }
        ensures family { IsFamily (sets_of self.new) }
        ensures steps { steps.new ≡ steps.old + 1 }
    {
        steps.tick();
        let raised = values::shifted(self.values[set as usize], by);
        self.values[set as usize] = raised;
    }

    /// The top that holds a member.
    pub fn tops(&self, member: u32) -> u32
        requires { member < (sets_of self.now).size }
        ensures value { result ≡ (sets_of self.now).top member }
        ensures family { IsFamily (sets_of self.now) }
    {
        self.tops[member as usize]
    }

    /// The set whose child a live set is: none exactly where it is a top. From each member of a set
    /// parents lead to it.
    pub fn parent(&self, set: u32) -> Option<u32>
        requires { (sets_of self.now).live set ≡ true }
        ensures value { result ≡ (sets_of self.now).parent set }
        ensures top { (m : ℕ) → m < (sets_of self.now).size →
            (sets_of self.now).holds set m ≡ true →
            ((result ≡ None) ↔ ((sets_of self.now).top m ≡ set)) }
        ensures reached { AreReached (sets_of self.now) }
        ensures family { IsFamily (sets_of self.now) }
    {
        self.parents[set as usize]
    }

    /// Whether a live set holds a member.
    pub fn holds(&self, set: u32, member: u32) -> bool
        requires { (sets_of self.now).live set ≡ true }
        ensures { result ≡ (sets_of self.now).holds set member }
    {
        self.rows[set as usize].holds(member)
    }

    /// The value of a live set.
    pub fn value(&self, set: u32) -> u64
        requires { (sets_of self.now).live set ≡ true }
        ensures value { result ≡ (sets_of self.now).value set }
        ensures family { IsFamily (sets_of self.now) }
    {
        self.values[set as usize]
    }

    /// The next child around in the ring of the parent, and the members that join the two: one of
    /// the child, then one of the next.
    pub fn child_after(&self, child: u32) -> (u32, u32, u32)
        requires { (sets_of self.now).parent child ≢ None }
        ensures next { IsNext (sets_of self.now) child result.0 (result.1, result.2) }
        ensures family { IsFamily (sets_of self.now) }
    {
        let (from, to) = self.joins[child as usize];
        (self.ring.next(child), from, to)
    }

    /// The members of a set, ascending: none at a number without a set.
    pub fn members(&self, set: u32) -> &[u32]
        requires { set < 2 * (sets_of self.now).size }
        ensures members { result.now ≡ members_of (sets_of self.now) set }
        ensures held { (m : ℕ) → has result.now m ≡ (sets_of self.now).holds set m }
        ensures below { All (λ m. m < (sets_of self.now).size) result.now }
        ensures family { IsFamily (sets_of self.now) }
    {
        self.rows[set as usize].as_slice()
    }
}
