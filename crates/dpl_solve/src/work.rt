//! What is written as the parts are solved, one after another.

ghost use Rattle.std.specs.Prelude.{◌≡◌, ℕ, [], IfOk};
ghost use Rattle.dpl_map.specs.Planes.{joined_bit};
ghost use Rattle.dpl_solve.specs.Works.{IsDrawn, IsReady};

use crate::drawn::Drawn;
use dpl_sign::Cycle;
use std::alloc::{AllocError, Global};

/// Marks of faces and of darts, which a walk around a moat sets and takes away again.
#[derive(Drop)]
pub struct Marks {
    pub inside: Vec<bool>,
    pub seen: Vec<bool>,
}

/// The edges that are joined so far, the walks so far, and the marks for the next ones.
#[derive(Drop)]
pub struct Work {
    pub joined: Vec<bool>,
    pub cycles: Vec<Cycle>,
    pub marks: Marks,
}

impl Work {
    /// Nothing is joined, and there are no walks.
    pub fn new(alloc: Global, drawn: &Drawn<'_>) -> Result<Work, AllocError>
        requires { IsDrawn drawn.now }
        ensures ready { IfOk result (λ w. IsReady drawn.now w) }
        ensures none { IfOk result (λ w. (e : ℕ) → joined_bit w.joined.items e ≡ 0) }
        ensures fresh { IfOk result (λ w. w.cycles.items ≡ []) }
    {
        let count = drawn.graph.edges.as_slice().len();
        let joined = vec![in alloc; false; count]?;
        let faces = drawn.map.faces() as usize;
        let inside = vec![in alloc; false; faces]?;
        let seen = vec![in alloc; false; 2 * count]?;
        Ok(Work {
            joined,
            cycles: Vec::new(alloc),
            marks: Marks { inside, seen },
        })
    }
}
