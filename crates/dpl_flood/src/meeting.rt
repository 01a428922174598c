//! What two tops that met have over their way.

ghost use Rattle.std.specs.Prelude.{◌≡◌, ◌≢◌, ◌<◌, ℕ, Some, None, IfOk, OnErr};
ghost use Rattle.dpl_dual.specs.declared.crosses.Dual.{Dual};
ghost use Rattle.dpl_flood.specs.Forested.{IsMeeting, HasTied};
ghost use Rattle.dpl_flood.specs.Holdings.{node_of};

use crate::event::Crossing;
use crate::nodes::Join;
use crate::state::State;
use std::alloc::AllocError;

/// The join of two held faces over a way between them.
fn join_over(state: &State, ahead: Crossing) -> Join
    requires from { node_of state.now.held ahead.from ≢ None }
    requires to { node_of state.now.held ahead.to ≢ None }
    ensures first { node_of state.now.held ahead.from ≡ Some result.first }
    ensures second { node_of state.now.held ahead.to ≡ Some result.second }
    ensures way { result.way ≡ ahead.way }
{
    match state.held.node(ahead.from) {
        Some(first) => match state.held.node(ahead.to) {
            Some(second) => Join {
                first,
                way: ahead.way,
                second,
            },
            None => unreachable!(),
        },
        None => unreachable!(),
    }
}

/// Notes what two tops that met have over their way, and tells the members that it leads between. It is as long as their load.
pub(crate) fn tie(state: &mut State, ahead: Crossing) -> Result<(u32, u32), AllocError>
    requires met { (d : Dual) × IsMeeting d state.old ahead }
    ensures tied { IfOk result (λ p. (d : Dual) (m : IsMeeting d state.old ahead) →
        HasTied d state.old state.new m.met.one m.met.two p) }
    ensures err { OnErr result (state.new ≡ state.old) }
{
    let join = join_over(state, ahead);
    let from = state.arena.node(join.first).member;
    let to = state.arena.node(join.second).member;
    state.joins.note(state.arena.nodes(), join)?;
    Ok((from, to))
}
