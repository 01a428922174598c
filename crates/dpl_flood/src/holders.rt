//! The faces that are held, as moats are laid by them.

ghost use Rattle.std.specs.Prelude.{◌≡◌, ◌*◌, length, IfOk};
ghost use Rattle.dpl_laminar.specs.Storing.{sets_of};
ghost use Rattle.dpl_dual.specs.declared.crosses.Dual.{Dual};
ghost use Rattle.dpl_pack.specs.Floods.{AreHeld, IsFloodOf};
ghost use Rattle.dpl_flood.specs.Holdings.{stack_of};
ghost use Rattle.dpl_flood.specs.Listings.{AreNoted, IsOneOf, IsStacked};
ghost use Rattle.dpl_flood.specs.States.{IsState, sea_of};

use crate::state::State;
use dpl_dual::Dual;
use dpl_pack::Held;
use std::alloc::{AllocError, Global};

/// Notes a face if it is held.
fn note(state: &State, face: u32, found: &mut Vec<Held>) -> Result<(), AllocError>
    requires { (d : Dual) × IsState d state.now }
    ensures { IfOk result (λ _. AreNoted (sea_of state.now).point (λ g. g ≡ face) found.old.items found.new.items) }
{
    match state.held.node(face) {
        Some(number) => {
            let node = state.arena.node(number);
            found.push(Held {
                face,
                member: node.member,
                far: node.far,
            })?;
            Ok(())
        }
        None => Ok(()),
    }
}

/// Notes those of these faces that are held.
fn note_all(state: &State, faces: &[u32], found: &mut Vec<Held>) -> Result<(), AllocError>
    requires { (d : Dual) × IsState d state.now }
    ensures { IfOk result (λ _. AreNoted (sea_of state.now).point (IsOneOf faces.now (length faces.now)) found.old.items found.new.items) }
{
    for i in 0..faces.len() {
        note(state, faces[i], found)?;
    }
    Ok(())
}

/// Notes the faces that sets took.
fn note_stacks(state: &State, found: &mut Vec<Held>) -> Result<(), AllocError>
    requires { (d : Dual) × IsState d state.now }
    ensures { IfOk result (λ _. AreNoted (sea_of state.now).point
        (IsStacked (stack_of state.now.held) (2 * (sets_of state.now.family).size)) found.old.items found.new.items) }
{
    for i in 0..state.rests.len() {
        note_all(state, state.held.faces(i as u32), found)?;
    }
    Ok(())
}

/// The faces that are not in open water, each with the member whose chain holds it and how far it is from the seat of that
/// one: the seats, and those that sets took. It costs the sets and the faces that are held. `dpl_pack` lays moats by them.
pub fn held_faces(alloc: Global, dual: &Dual, state: &State) -> Result<Vec<Held>, AllocError>
    requires state { IsState dual.now state.now }
    ensures held { IfOk result (λ v. AreHeld v.items (sea_of state.now).point) }
    ensures flood { IfOk result (λ v. IsFloodOf dual.now state.now.seats (sets_of state.now.family) v.items) }
{
    let mut found = Vec::new(alloc);
    note_all(state, state.seats.as_slice(), &mut found)?;
    note_stacks(state, &mut found)?;
    Ok(found)
}
