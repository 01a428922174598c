// A walk in depth over a graph, with a stack of its own.
ghost use Rattle.std.specs.Prelude.{◌≡◌, ◌≢◌, ◌≤◌, ◌<◌, ◌+◌, ◌-◌, ℕ, OnOk, IfOk, MatchOption, [], map, length};
ghost use Rattle.std.proofs.Math.ListN.{get_or};
ghost use Rattle.dpl_groups.specs.Graph.{IsGraph, next_of, IsEdge};
ghost use Rattle.dpl_groups.specs.Walk as walks;
ghost use Rattle.dpl_groups.specs.Walk.{view, opened, popped, closed, AreOnPath, DropsAbove, AreMerged, IsWalk, IsSettled, Comes, Settles, IsTop, IsTopNode, StaySeen, Rises, begins_at, work};
ghost use Rattle.dpl_groups.specs.declared.walk.Mark.TheVariants as mark;

use dpl_list::Items;
use std::alloc::{AllocError, Global};

/// What is known of a node: nothing, its place on the path, or the number of its group.
#[derive(Clone, Copy, Debug, PartialEq, Eq)]
pub enum Mark {
    New,
    Open(usize),
    Done(usize),
}

/// Where a walk stands.
#[derive(Drop)]
pub struct Walk {
    pub marks: Vec<Mark>,
    /// How many of the last edges of each node have not been looked at.
    pub left: Vec<usize>,
    /// The open nodes, in the order in which they were opened.
    pub path: Vec<usize>,
    /// Where on the path each group begins.
    pub starts: Vec<usize>,
    /// The places of the path whose edges are being looked at.
    pub stack: Vec<usize>,
    /// A node of each group that is done.
    pub heads: Vec<usize>,
}

/// How many edges each node has.
fn counts(alloc: Global, edges: &[Items<usize>]) -> Result<Vec<usize>, AllocError>
    ensures { IfOk result (λ v. v.items ≡ map (λ e. length e) edges.now) }
{
    let mut counts = Vec::new(alloc);
    for list in edges {
        counts.push(list.as_slice().len())?;
    }
    Ok(counts)
}

/// Items above a number are dropped from the end.
fn drop_above(items: &mut Vec<usize>, most: usize)
    ensures { DropsAbove most items.old.items items.new.items }
{
    'items: while let Some(last) = items.last()
        && *last > most
    {
        items.pop();
    }
}

/// What is on the path from a place on is done in a group.
fn shut(marks: &mut Vec<Mark>, path: &[usize], place: usize, label: usize)
    requires path { AreOnPath marks.old.items path.now }
    requires place { place ≤ length path.now }
    ensures value { (x : ℕ) → get_or marks.new.items x mark.New
        ≡ walks.shut place label (get_or marks.old.items x mark.New) }
    ensures len { length marks.new.items ≡ length marks.old.items }
{
    for k in place..path.len() {
        marks[path[k]] = Mark::Done(label);
    }
}

impl Walk {
    /// Nothing has been seen.
    pub fn new(alloc: Global, edges: &[Items<usize>]) -> Result<Walk, AllocError>
        ensures walk { IfOk result (λ w. IsWalk edges.now (view w)) }
        ensures empty { IfOk result (λ w. w.stack.items ≡ []) }
    {
        Ok(Walk {
            marks: vec![in alloc; Mark::New; edges.len()]?,
            left: counts(alloc, edges)?,
            path: Vec::new(alloc),
            starts: Vec::new(alloc),
            stack: Vec::new(alloc),
            heads: Vec::new(alloc),
        })
    }

    /// A node is opened: it is a group of its own at the end of the path.
    pub fn open(&mut self, node: usize) -> Result<(), AllocError>
        requires { node < length self.old.marks.items }
        ensures view { OnOk result (view self.new ≡ opened (view self.old) node) }
        ensures left { OnOk result (self.new.left.items ≡ self.old.left.items) }
    {
        let place = self.path.len();
        self.path.push(node)?;
        self.starts.push(place)?;
        self.stack.push(place)?;
        self.marks[node] = Mark::Open(place);
        Ok(())
    }

    /// The groups behind the one of a place are merged into it.
    fn merge(&mut self, place: usize)
        requires { Rises (view self.old) }
        ensures merged { AreMerged (view self.old) (view self.new) place }
        ensures left { self.new.left.items ≡ self.old.left.items }
    {
        drop_above(&mut self.starts, place);
    }

    /// An edge of the top of the stack, whose node is `node`, to `next` is taken into account.
    fn settle(&mut self, edges: &[Items<usize>], node: usize, next: usize) -> Result<(), AllocError>
        requires walk { IsWalk edges.now (view self.old) }
        requires top { IsTopNode (view self.old) node }
        requires next { next < length edges.now }
        requires edge { IsEdge edges.now node next }
        ensures settled { OnOk result (Settles edges.now (view self.old) (view self.new) node
            next) }
        ensures left { OnOk result (self.new.left.items ≡ self.old.left.items) }
    {
        match self.marks[next] {
            Mark::New => self.open(next),
            Mark::Open(place) => {
                self.merge(place);
                Ok(())
            }
            Mark::Done(_) => Ok(()),
        }
    }

    /// The next edge of the top of the stack, whose node is `node`, is looked at.
    fn look(&mut self, edges: &[Items<usize>], node: usize) -> Result<(), AllocError>
        requires graph { IsGraph edges.now }
        requires walk { IsWalk edges.now (view self.old) }
        requires top { IsTopNode (view self.old) node }
        requires more { 0 < get_or self.old.left.items node 0 }
        ensures walk { OnOk result (IsWalk edges.now (view self.new)) }
        ensures seen { OnOk result (StaySeen (view self.old) (view self.new)) }
        ensures smaller { OnOk result (work self.new < work self.old) }
    {
        let list = edges[node].as_slice();
        let left = self.left[node];
        let next = list[list.len() - left];
        self.settle(edges, node, next)?;
        self.left[node] = left - 1;
        Ok(())
    }

    /// The top of the stack is left.
    fn pop(&mut self)
        ensures view { view self.new ≡ popped (view self.old) }
        ensures left { self.new.left.items ≡ self.old.left.items }
    {
        self.stack.pop();
    }

    /// The top of the stack is left, and its group, which begins at this place of the path, is done.
    fn close(&mut self, place: usize) -> Result<(), AllocError>
        requires path { AreOnPath self.old.marks.items self.old.path.items }
        requires place { place < length self.old.path.items }
        ensures view { OnOk result (view self.new ≡ closed (view self.old) place) }
        ensures left { OnOk result (self.new.left.items ≡ self.old.left.items) }
    {
        let label = self.heads.len();
        self.heads.push(self.path[place])?;
        shut(&mut self.marks, &self.path, place, label);
        self.path.truncate(place);
        self.starts.pop();
        self.stack.pop();
        Ok(())
    }

    /// Whether the last group begins at this place.
    #[tactic(auto, unfolding(crate::specs::Walk::view))]
    fn begins_at(&self, place: usize) -> bool
        ensures { result ≡ begins_at (view self.now) place }
    {
        let count = self.starts.len();
        count > 0 && self.starts[count - 1] == place
    }

    /// The place of the path that is the top of the stack.
    pub fn top(&self) -> Option<usize>
        ensures { MatchOption result (self.now.stack.items ≡ []) (λ p. IsTop (view self.now) p) }
    {
        let count = self.stack.len();
        if count == 0 {
            None
        } else {
            Some(self.stack[count - 1])
        }
    }

    /// One step, at the top of the stack, which is this place of the path.
    pub fn step(&mut self, edges: &[Items<usize>], place: usize) -> Result<(), AllocError>
        requires graph { IsGraph edges.now }
        requires walk { IsWalk edges.now (view self.old) }
        requires top { IsTop (view self.old) place }
        ensures walk { OnOk result (IsWalk edges.now (view self.new)) }
        ensures seen { OnOk result (StaySeen (view self.old) (view self.new)) }
        ensures smaller { OnOk result (work self.new < work self.old) }
    {
        let node = self.path[place];
        if self.left[node] > 0 {
            return self.look(edges, node);
        }
        if self.begins_at(place) {
            return self.close(place);
        }
        self.pop();
        Ok(())
    }
}
