//! What happens at the shores of moats: faces are taken and left. No moat moves.

ghost use Rattle.std.specs.Prelude.{◌≡◌, ◌*◌, ◌<◌, OnOk, OnErr};
ghost use Rattle.dpl_laminar.specs.Storing.{sets_of};
ghost use Rattle.dpl_dual.specs.declared.crosses.Dual.{Dual};
ghost use Rattle.dpl_dual.specs.Duals.{way_at};
ghost use Rattle.dpl_flood.specs.Arenas.{IsOver};
ghost use Rattle.dpl_flood.specs.Forested.{IsSameForest};
ghost use Rattle.dpl_flood.specs.Holdings.{stack_of};
ghost use Rattle.dpl_flood.specs.Seas.{HasReached, Drops};
ghost use Rattle.dpl_flood.specs.States.{IsState, sea_of, IsTaken, IsLeft};

use crate::state::State;
use dpl_dual::Dual;
use std::alloc::AllocError;

/// A top that grows takes a face in open water, to which it has come over a way from a face that it holds.
pub fn take(state: &mut State, dual: &Dual, from: u32, way: u32, to: u32) -> Result<(), AllocError>
    requires state { IsState dual.now state.old }
    requires over { IsOver dual.now.crosses from way to }
    requires reached { HasReached dual.now state.old.seats (sea_of state.old) from to (way_at dual.now.crosses way).length }
    ensures ok { OnOk result (IsTaken dual.now state.old state.new to) }
    ensures err { OnErr result (sea_of state.new ≡ sea_of state.old) }
    ensures same { IsSameForest state.old state.new }
    ensures state { IsState dual.now state.new }
{
    let before = match state.held.node(from) {
        Some(node) => node,
        None => unreachable!(),
    };
    let top = state.family.tops(state.arena.node(before).member);
    let node = state
        .arena
        .onward(dual.crosses.as_slice(), before, way, to)?;
    state.held.push(top, to, node)?;
    Ok(())
}

/// A top that falls leaves the last face on its stack, and tells which it was.
pub fn leave(state: &mut State, set: u32) -> u32
    requires state { (d : Dual) × IsState d state.old }
    requires set { set < 2 * (sets_of state.old.family).size }
    requires drops { Drops state.old.seats (sea_of state.old) (stack_of state.old.held) set }
    ensures left { IsLeft state.old state.new set result }
    ensures same { IsSameForest state.old state.new }
    ensures state { (d : Dual) → IsState d state.old → IsState d state.new }
{
    match state.held.pop(set) {
        Some(face) => face,
        None => unreachable!(),
    }
}
