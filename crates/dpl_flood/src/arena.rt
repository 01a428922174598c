//! Chains from the seats of members, kept for good.

ghost use Rattle.std.specs.Prelude.{List, ◌≡◌, ◌+◌, ◌<◌, ◌^◌, ◌++◌, ◌∷◌, [], None, All, length, map, reverse, IfOk, OnOk, OnErr};
ghost use Rattle.dpl_dual.specs.Duals.{way_at};
ghost use Rattle.dpl_flood.specs.Arenas.{node_at, IsOver, AreNodes, IsLonger, IsThere, IsJoin, IsDrawn, IsThrough, start_of, end_of, chain_of, join_chain, join_length};

use crate::nodes::{Join, Last, Node};
use crate::searching::find;
use dpl_dual::Cross;
use std::alloc::{AllocError, Global};
use std::marker::Model;

/// Stands where there is no node.
const NO_NODE: u32 = 4294967295;

/// Chains from the seats of members to faces. Contracts see the list of the nodes, which are only added.
///
/// For speed alone each face has its newest node, and each node an older one of its face.
#[derive(Drop)]
pub struct Arena {
    nodes: Vec<Node>,
    older: Vec<u32>,
    newest: Vec<u32>,
}

/// Forgets the newest nodes at the faces of these nodes.
fn forget(nodes: &[Node], newest: &mut [u32]) {
    for i in 0..nodes.len() {
        if let Some(node) = newest.get_mut(nodes[i].face as usize) {
            *node = NO_NODE;
        }
    }
}

impl Model for Arena {
    ghost use Rattle.std.specs.Prelude.{List};
    ghost use Rattle.dpl_flood.specs.declared.nodes.Node.{Node};

    ghost Value = { List Node };

    ghost view = { λ a. a.nodes.items };
}

impl Arena {
    /// No chains yet, and a place for each face. It costs the faces.
    pub fn new(alloc: Global, faces: u32) -> Result<Arena, AllocError>
        ensures { IfOk result (λ a. a ≡ []) }
    {
        Ok(Arena {
            nodes: Vec::new(alloc),
            older: Vec::new(alloc),
            newest: vec![in alloc; NO_NODE; faces as usize]?,
        })
    }

    /// Forgets all chains, for another part. It costs the nodes.
    pub fn clear(&mut self)
        ensures { self.new ≡ [] }
    {
        forget(&self.nodes, &mut self.newest);
        self.nodes.clear();
        self.older.clear();
    }

    /// The nodes in their order.
    pub fn nodes(&self) -> &[Node]
        ensures { result.now ≡ self.now }
    {
        self.nodes.as_slice()
    }

    /// A node.
    pub fn node(&self, number: u32) -> Node
        requires { number < length self.now }
        ensures { result ≡ node_at self.now number }
    {
        self.nodes[number as usize]
    }

    /// The newest node at a face, if that was noted.
    fn newest(&self, face: u32) -> u32 {
        match self.newest.get(face as usize) {
            Some(node) => *node,
            None => NO_NODE,
        }
    }

    /// Adds a node. It wants memory too where the numbers of nodes are used up.
    fn add(&mut self, node: Node) -> Result<u32, AllocError>
        ensures added { IfOk result (λ a. (a ≡ length self.old) × (self.new ≡ self.old ++ node ∷ [])) }
        ensures err { OnErr result (self.new ≡ self.old) }
    {
        let number = self.nodes.len();
        if number >= NO_NODE as usize {
            return Err(AllocError);
        }
        let older = self.newest(node.face);
        self.older.push(older)?;
        self.nodes.push(node)?;
        if let Some(newest) = self.newest.get_mut(node.face as usize) {
            *newest = number as u32;
        }
        Ok(number as u32)
    }

    /// The first node of a member, at its seat. The number of the node is that of the member.
    pub fn seat(&mut self, face: u32) -> Result<u32, AllocError>
        ensures number { IfOk result (λ a. a ≡ length self.old) }
        ensures one { IfOk result (λ _. length self.new ≡ length self.old + 1) }
        ensures node { IfOk result (λ a. IsThere self.new a face a 0) }
        ensures none { IfOk result (λ a. (node_at self.new a).last ≡ None) }
        ensures longer { IsLonger self.old self.new }
        ensures kept { (ways : List Cross) → AreNodes ways self.old → AreNodes ways self.new }
    {
        let member = self.nodes.len();
        if member >= NO_NODE as usize {
            return Err(AllocError);
        }
        self.add(Node {
            last: None,
            face,
            member: member as u32,
            far: 0,
        })
    }

    /// A node one way beyond another one. Where the member came to that face before by a chain as long, that chain serves.
    pub fn onward(
        &mut self,
        ways: &[Cross],
        before: u32,
        way: u32,
        face: u32,
    ) -> Result<u32, AllocError>
        requires from { before < length self.old }
        requires over { IsOver ways.now (node_at self.old before).face way face }
        requires fits { (node_at self.old before).far + (way_at ways.now way).length < 2 ^ 64 }
        ensures node { IfOk result (λ b. IsThere self.new b face (node_at self.old before).member
            ((node_at self.old before).far + (way_at ways.now way).length)) }
        ensures longer { IsLonger self.old self.new }
        ensures kept { AreNodes ways.now self.old → AreNodes ways.now self.new }
    {
        let from = self.nodes[before as usize];
        let far = from.far + ways[way as usize].length;
        match find(
            &self.nodes,
            &self.older,
            self.newest(face),
            face,
            from.member,
            far,
        ) {
            Some(found) => Ok(found),
            None => self.add(Node {
                last: Some(Last { before, way }),
                face,
                member: from.member,
                far,
            }),
        }
    }

    /// The chain of a join as that of one whose first node is at its seat. It costs the ways of the chain to the first node.
    fn draw(&mut self, ways: &[Cross], join: Join) -> Result<Join, AllocError>
        requires nodes { AreNodes ways.now self.old }
        requires join { IsJoin ways.now self.old join }
        requires fits { join_length ways.now self.old join < 2 ^ 64 }
        ensures drawn { IfOk result (λ j. IsDrawn ways.now self.old self.new join j) }
        ensures longer { IsLonger self.old self.new }
        ensures kept { AreNodes ways.now self.new }
    {
        let mut at = join;
        loop {
            let here = self.node(at.first);
            match here.last {
                None => return Ok(at),
                Some(last) => {
                    let second = self.onward(ways, at.second, at.way, here.face)?;
                    at = Join {
                        first: last.before,
                        way: last.way,
                        second,
                    };
                }
            }
        }
    }

    /// The chains of two joins as one, where the second one begins at the seat where the first one ends. It costs the ways of
    /// a chain of each.
    pub fn through(&mut self, ways: &[Cross], x: Join, y: Join) -> Result<Join, AllocError>
        requires nodes { AreNodes ways.now self.old }
        requires first { IsJoin ways.now self.old x }
        requires second { IsJoin ways.now self.old y }
        requires between { end_of self.old x ≡ start_of self.old y }
        requires fits { join_length ways.now self.old x + join_length ways.now self.old y < 2 ^ 64 }
        ensures through { IfOk result (λ j. IsThrough ways.now self.old self.new x y j) }
        ensures longer { IsLonger self.old self.new }
        ensures kept { AreNodes ways.now self.new }
    {
        let back = self.draw(ways, x.turned())?;
        let middle = self.node(back.first).face;
        let first = self.onward(ways, back.second, back.way, middle)?;
        let on = self.draw(ways, y)?;
        Ok(Join {
            first,
            way: on.way,
            second: on.second,
        })
    }

    /// Lists the ways back from a node to the seat of its member.
    fn back(&self, ways: &[Cross], end: u32, found: &mut Vec<u32>) -> Result<(), AllocError>
        requires nodes { AreNodes ways.now self.now }
        requires inside { end < length self.now }
        ensures chain { OnOk result (map (way_at ways.now) found.new.items
            ≡ map (way_at ways.now) found.old.items ++ reverse (chain_of ways.now self.now end)) }
        ensures numbers { All (λ w. w < length ways.now) found.old.items →
            OnOk result (All (λ w. w < length ways.now) found.new.items) }
    {
        let mut here = end;
        loop {
            match self.node(here).last {
                None => return Ok(()),
                Some(last) => {
                    found.push(last.way)?;
                    here = last.before;
                }
            }
        }
    }

    /// The numbers of the ways of a join, from its one seat to its other. It costs their number.
    pub fn ways_of(&self, alloc: Global, ways: &[Cross], join: Join) -> Result<Vec<u32>, AllocError>
        requires nodes { AreNodes ways.now self.now }
        requires join { IsJoin ways.now self.now join }
        ensures chain { IfOk result (λ v. map (way_at ways.now) v.items ≡ join_chain ways.now self.now join) }
        ensures numbers { IfOk result (λ v. All (λ w. w < length ways.now) v.items) }
    {
        let mut found = Vec::new(alloc);
        self.back(ways, join.first, &mut found)?;
        found.reverse();
        found.push(join.way)?;
        self.back(ways, join.second, &mut found)?;
        Ok(found)
    }
}
