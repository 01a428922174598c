//! What moats leave where they are grown.

ghost use Rattle.std.specs.Prelude.{◌≡◌, ◌<◌, ◌%◌, ◌^◌, All, length, IfOk};
ghost use Rattle.dpl_laminar.specs.Storing.{sets_of};
ghost use Rattle.dpl_pack.specs.Floods.{IsFloodOf};
ghost use Rattle.dpl_flood.specs.Flips.{AreJoinedBy, AreOverChains};
ghost use Rattle.dpl_flood.specs.Starts.{AreSeats};
ghost use Rattle.dpl_flood.specs.States.{IsGround};
ghost use Rattle.dpl_flood.specs.Steps.{step_rows};

use crate::holders::held_faces;
use crate::lent::Lent;
use crate::pairing::{Paired, pair_faces};
use crate::state::State;
use crate::ways::Step;
use dpl_dual::Dual;
use dpl_laminar::{Family, Steps};
use dpl_list::Grouped;
use dpl_pack::Held;
use std::alloc::{AllocError, Global};
use std::sync::ledger::Ledger;

/// A family over odd faces of one part, the faces that its members hold, by which its moats are laid, and what was lent.
#[derive(Drop)]
pub struct Grown {
    pub family: Family,
    pub held: Vec<Held>,
    pub lent: Lent,
}

/// Joins an even number of faces of one part in pairs, along chains which are together as long as a family of sets of these
/// faces weighs, and gives that family with the faces that its members hold. It costs the part alone.
pub fn flood<L: Ledger>(
    alloc: Global,
    dual: &Dual,
    ways: &Grouped<Step>,
    faces: &[u32],
    lent: Lent,
    joined: &mut [bool],
    steps: &mut Steps<L>,
) -> Result<Grown, AllocError>
    requires ground { IsGround dual.now }
    requires seats { AreSeats dual.now faces.now }
    requires even { length faces.now % 2 ≡ 0 }
    requires near { AreOverChains dual.now.crosses faces.now (λ s t. 2 ^ 51) }
    requires ways { ways.now ≡ step_rows dual.now.crosses dual.now.faces }
    requires places { All (λ x. x.edge < length joined.old) dual.now.crosses }
    ensures size { IfOk result (λ r. (sets_of r.family).size ≡ length faces.now) }
    ensures joined { IfOk result (λ r. AreJoinedBy dual.now faces.now (sets_of r.family) joined.old joined.new) }
    ensures flood { IfOk result (λ r. IsFloodOf dual.now faces.now (sets_of r.family) r.held.items) }
{
    let Paired { state, keys, .. } = pair_faces(alloc, dual, ways, faces, lent, joined, steps)?;
    let found = held_faces(alloc, dual, &state)?;
    let State {
        family,
        arena,
        held,
        ..
    } = state;
    Ok(Grown {
        family,
        held: found,
        lent: Lent {
            nodes: arena,
            places: held.give_back(),
            keys,
        },
    })
}
