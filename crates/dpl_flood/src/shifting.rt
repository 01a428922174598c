//! A face is taken or left, and the keys that this bears on are set anew.

ghost use Rattle.std.specs.Prelude.{◌≡◌, ℕ, OnOk, OnErr};
ghost use Rattle.dpl_dual.specs.declared.crosses.Dual.{Dual};
ghost use Rattle.dpl_flood.specs.Events.{HasCome, Reaches, Shrinks};
ghost use Rattle.dpl_flood.specs.Forested.{IsForested, IsSameForest};
ghost use Rattle.dpl_flood.specs.States.{IsState, AreKeys, IsTaken, IsLeft, sea_of};
ghost use Rattle.dpl_flood.specs.Steps.{step_rows};

use crate::event::{Crossing, Event};
use crate::looks::look_around;
use crate::queue::Queue;
use crate::shores::{leave, take};
use crate::state::State;
use crate::ways::Step;
use dpl_dual::Dual;
use dpl_list::Grouped;
use std::alloc::AllocError;

/// A top that grows takes the face that it has reached, and the keys around that face are set anew.
pub fn reach(
    state: &mut State,
    dual: &Dual,
    steps: &Grouped<Step>,
    queue: &mut Queue,
    ahead: Crossing,
) -> Result<(), AllocError>
    requires state { IsState dual.now state.old }
    requires keys { AreKeys dual.now state.old queue.old }
    requires steps { steps.now ≡ step_rows dual.now.crosses dual.now.faces }
    requires reaches { Reaches dual.now state.old ahead }
    ensures ok { OnOk result (IsTaken dual.now state.old state.new ahead.to) }
    ensures err { OnErr result (sea_of state.new ≡ sea_of state.old) }
    ensures same { IsSameForest state.old state.new }
    ensures state { IsState dual.now state.new }
    ensures forest { IsForested dual.now state.old → IsForested dual.now state.new }
    ensures keys { AreKeys dual.now state.new queue.new }
{
    take(state, dual, ahead.from, ahead.way, ahead.to)?;
    look_around(state, dual, steps, queue, ahead.to);
    Ok(())
}

/// A top that falls leaves its last face, and the keys around that face are set anew. The key of the top is early now.
pub fn retreat(state: &mut State, dual: &Dual, steps: &Grouped<Step>, queue: &mut Queue, set: u32)
    requires state { IsState dual.now state.old }
    requires keys { AreKeys dual.now state.old queue.old }
    requires steps { steps.now ≡ step_rows dual.now.crosses dual.now.faces }
    requires shrinks { Shrinks state.old set }
    ensures left { (face : ℕ) × IsLeft state.old state.new set face }
    ensures same { IsSameForest state.old state.new }
    ensures state { IsState dual.now state.new }
    ensures forest { IsForested dual.now state.old → IsForested dual.now state.new }
    ensures keys { AreKeys dual.now state.new queue.new }
{
    let face = leave(state, set);
    look_around(state, dual, steps, queue, face);
}

/// Takes the face that was reached, or leaves the one that a top has come down to. Other events are left as they are.
pub fn shift(
    state: &mut State,
    dual: &Dual,
    steps: &Grouped<Step>,
    queue: &mut Queue,
    event: Event,
) -> Result<(), AllocError>
    requires state { IsState dual.now state.old }
    requires keys { AreKeys dual.now state.old queue.old }
    requires steps { steps.now ≡ step_rows dual.now.crosses dual.now.faces }
    requires come { HasCome dual.now state.old event }
    ensures state { IsState dual.now state.new }
    ensures forest { IsForested dual.now state.old → IsForested dual.now state.new }
    ensures keys { AreKeys dual.now state.new queue.new }
{
    match event {
        Event::Take(ahead) => {
            reach(state, dual, steps, queue, ahead)?;
            Ok(())
        }
        Event::Leave(set) => {
            retreat(state, dual, steps, queue, set);
            Ok(())
        }
        _ => Ok(()),
    }
}
