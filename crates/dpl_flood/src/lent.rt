//! What is made once for a dual and lent to one part after another.

ghost use Rattle.std.specs.Prelude.{◌≡◌, [], None, IfOk, length, replicate};
ghost use Rattle.dpl_flood.specs.Queues.{never};
ghost use Rattle.dpl_flood.specs.States.{IsGround};

use crate::arena::Arena;
use crate::keys::Keys;
use crate::stamped::Stamped;
use dpl_dual::Dual;
use std::alloc::{AllocError, Global};

/// Nodes of chains, a place for each face and a key for each way of a whole dual. A part that borrows them costs its own size.
#[derive(Drop)]
pub struct Lent {
    pub nodes: Arena,
    pub places: Stamped,
    pub keys: Keys,
}

impl Lent {
    /// For all parts of a dual. It costs the faces and the ways.
    pub fn new(alloc: Global, dual: &Dual) -> Result<Lent, AllocError>
        requires { IsGround dual.now }
        ensures nodes { IfOk result (λ lent. lent.nodes ≡ []) }
        ensures places { IfOk result (λ lent. lent.places ≡ replicate dual.now.faces None) }
        ensures keys { IfOk result (λ lent. lent.keys ≡ replicate (length dual.now.crosses) never) }
    {
        Ok(Lent {
            nodes: Arena::new(alloc, dual.faces)?,
            places: Stamped::new(alloc, dual.faces as usize)?,
            keys: Keys::new(alloc, dual.crosses.as_slice().len())?,
        })
    }
}
