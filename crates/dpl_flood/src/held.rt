//! Which chain holds each face, and which faces each set took.

ghost use Rattle.std.specs.Prelude.{◌≡◌, ◌<◌, ℕ, List, ◌∷◌, [], None, Some, IfOk, OnOk, OnErr, MatchOption, length, replicate, reverse, slice_index_or, slice_set};
ghost use Rattle.dpl_flood.specs.Holdings.{node_of, stack_of, seated, pushed, popped};

use crate::stamped::Stamped;
use std::alloc::{AllocError, Global};
use std::marker::Model;

/// The faces that a set took. Contracts see them as a list, the last one first.
#[derive(Drop)]
struct Stack {
    faces: Vec<u32>,
}

impl Model for Stack {
    ghost use Rattle.std.specs.Prelude.{List, ℕ, reverse};

    ghost Value = { List ℕ };

    ghost view = { λ s. reverse s.faces.items };
}

impl Stack {
    /// No faces.
    fn new(alloc: Global) -> Stack
        ensures { result ≡ [] }
    {
        Stack {
            faces: Vec::new(alloc),
        }
    }

    /// Takes a face.
    fn push(&mut self, face: u32) -> Result<(), AllocError>
        ensures ok { OnOk result (self.new ≡ face ∷ self.old) }
        ensures err { OnErr result (self.new ≡ self.old) }
    {
        self.faces.push(face)?;
        Ok(())
    }

    /// The last face, which is taken away.
    fn pop(&mut self) -> Option<u32>
        ensures { MatchOption result ((self.old ≡ []) × (self.new ≡ [])) (λ h. self.old ≡ h ∷ self.new) }
    {
        self.faces.pop()
    }

    /// All faces, the first one first.
    fn faces(&self) -> &[u32]
        ensures { reverse result.now ≡ self.now }
    {
        self.faces.as_slice()
    }

    /// The last face.
    fn last(&self) -> Option<u32>
        ensures { MatchOption result (self.now ≡ []) (λ h. (rest : List ℕ) × (self.now ≡ h ∷ rest)) }
    {
        match self.faces.last() {
            Some(face) => Some(*face),
            None => None,
        }
    }
}

/// By face the node of the chain that holds it, and by set the faces that it took.
#[derive(Drop)]
pub struct Held {
    nodes: Stamped,
    stacks: Vec<Stack>,
}

impl Model for Held {
    ghost use Rattle.dpl_flood.specs.Holdings.{Holding};

    ghost Value = { Holding };

    ghost view = { λ h. record { nodes = h.nodes; stacks = h.stacks.items } };
}

/// So many stacks without faces.
fn no_faces(alloc: Global, count: usize) -> Result<Vec<Stack>, AllocError>
    ensures { IfOk result (λ s. s.items ≡ replicate count []) }
{
    let mut stacks = Vec::new(alloc);
    for _ in 0..count {
        stacks.push(Stack::new(alloc))?;
    }
    Ok(stacks)
}

/// Puts a face on the stack of a number.
fn push_on(stacks: &mut [Stack], set: usize, face: u32) -> Result<(), AllocError>
    requires { set < length stacks.old }
    ensures ok { OnOk result (stacks.new ≡ slice_set stacks.old set (face ∷ slice_index_or stacks.old set [])) }
    ensures err { OnErr result (stacks.new ≡ stacks.old) }
{
    let stack = &mut stacks[set];
    stack.push(face)
}

/// Takes the last face of the stack of a number away.
fn pop_from(stacks: &mut [Stack], set: usize) -> Option<u32>
    requires { set < length stacks.old }
    ensures { MatchOption result
        ((slice_index_or stacks.old set [] ≡ []) × (stacks.new ≡ stacks.old))
        (λ h. (rest : List ℕ) × ((slice_index_or stacks.old set [] ≡ h ∷ rest) × (stacks.new ≡ slice_set stacks.old set rest))) }
{
    let stack = &mut stacks[set];
    stack.pop()
}

impl Held {
    /// All faces are in open water. It costs the sets, and the faces where the places that are lent are not so many.
    pub fn new(alloc: Global, lent: Stamped, faces: usize, sets: usize) -> Result<Held, AllocError>
        ensures { IfOk result (λ h. h ≡ record { nodes = replicate faces None; stacks = replicate sets [] }) }
    {
        Ok(Held {
            nodes: lent.forgotten(alloc, faces)?,
            stacks: no_faces(alloc, sets)?,
        })
    }

    /// The places of the faces, for another part.
    pub fn give_back(self) -> Stamped {
        self.nodes
    }

    /// The node of the chain that holds a face: none in open water.
    pub fn node(&self, face: u32) -> Option<u32>
        ensures { result ≡ node_of self.now face }
    {
        self.nodes.get(face as usize)
    }

    /// The face that a set took last.
    pub fn last(&self, set: u32) -> Option<u32>
        requires { set < length self.now.stacks }
        ensures { MatchOption result (stack_of self.now set ≡ [])
            (λ h. (rest : List ℕ) × (stack_of self.now set ≡ h ∷ rest)) }
    {
        self.stacks[set as usize].last()
    }

    /// The faces that a set took, the first one first.
    pub fn faces(&self, set: u32) -> &[u32]
        requires { set < length self.now.stacks }
        ensures { reverse result.now ≡ stack_of self.now set }
    {
        self.stacks[set as usize].faces()
    }

    /// A seat is held by a chain, and stands on no stack.
    pub fn seat(&mut self, face: u32, node: u32)
        requires { face < length self.old.nodes }
        ensures { self.new ≡ seated self.old face node }
    {
        self.nodes.put(face as usize, node);
    }

    /// A set takes a face by a chain.
    pub fn push(&mut self, set: u32, face: u32, node: u32) -> Result<(), AllocError>
        requires face { face < length self.old.nodes }
        requires set { set < length self.old.stacks }
        ensures ok { OnOk result (self.new ≡ pushed self.old set face node) }
        ensures err { OnErr result (self.new ≡ self.old) }
    {
        push_on(&mut self.stacks, set as usize, face)?;
        self.nodes.put(face as usize, node);
        Ok(())
    }

    /// A set leaves the face that it took last.
    pub fn pop(&mut self, set: u32) -> Option<u32>
        requires set { set < length self.old.stacks }
        requires face { (h : ℕ) (rest : List ℕ) → stack_of self.old set ≡ h ∷ rest → h < length self.old.nodes }
        ensures { MatchOption result ((stack_of self.old set ≡ []) × (self.new ≡ self.old))
            (λ h. (rest : List ℕ) × ((stack_of self.old set ≡ h ∷ rest) × (self.new ≡ popped self.old set h rest))) }
    {
        match pop_from(&mut self.stacks, set as usize) {
            Some(face) => {
                self.nodes.take(face as usize);
                Some(face)
            }
            None => None,
        }
    }
}
