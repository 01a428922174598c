//! What rests may be entered again, and the keys that this bears on are set anew.

ghost use Rattle.std.specs.Prelude.{◌≡◌, ℕ, ◌*◌, ◌≤◌, true, false, length, slice_index_or, OnOk};
ghost use Rattle.dpl_laminar.specs.Storing.{sets_of};
ghost use Rattle.dpl_flood.specs.Events.{IsRelabelled};
ghost use Rattle.dpl_flood.specs.Forested.{IsForested, IsSameForest};
ghost use Rattle.dpl_flood.specs.Holdings.{stack_of};
ghost use Rattle.dpl_flood.specs.States.{IsState, AreKeys, AreKeyedFor, SeatsAmong, StacksAmong, sea_of, stands_among};
ghost use Rattle.dpl_flood.specs.Steps.{step_rows};

use crate::looks::{look_around, look_at};
use crate::queue::Queue;
use crate::relabelling::rouse;
use crate::state::State;
use crate::ways::Step;
use dpl_dual::Dual;
use dpl_list::Grouped;
use std::alloc::{AllocError, Global};

/// Sets the keys of all ways at the seats of the members of these tops anew.
fn look_seats_among(
    state: &State,
    dual: &Dual,
    steps: &Grouped<Step>,
    queue: &mut Queue,
    tops: &[bool],
)
    requires state { IsState dual.now state.now }
    requires steps { steps.now ≡ step_rows dual.now.crosses dual.now.faces }
    requires tops { length tops.now ≡ 2 * (sets_of state.now.family).size }
    requires places { length dual.now.crosses ≤ length queue.old }
    ensures { AreKeyedFor dual.now (sea_of state.now)
        (SeatsAmong (sea_of state.now) state.now.seats tops.now (sets_of state.now.family).size) queue.old queue.new }
{
    let seats = state.seats.as_slice();
    for i in 0..seats.len() {
        if tops[state.family.tops(i as u32) as usize] {
            look_around(state, dual, steps, queue, seats[i]);
        }
    }
}

/// Sets the keys of all ways at the faces that the sets of these tops took anew.
fn look_stacks_among(
    state: &State,
    dual: &Dual,
    steps: &Grouped<Step>,
    queue: &mut Queue,
    tops: &[bool],
)
    requires state { IsState dual.now state.now }
    requires steps { steps.now ≡ step_rows dual.now.crosses dual.now.faces }
    requires tops { length tops.now ≡ 2 * (sets_of state.now.family).size }
    requires places { length dual.now.crosses ≤ length queue.old }
    ensures { AreKeyedFor dual.now (sea_of state.now)
        (StacksAmong (sea_of state.now) (stack_of state.now.held) tops.now (2 * (sets_of state.now.family).size)) queue.old queue.new }
{
    for i in 0..tops.len() {
        let set = i as u32;
        if state.is_stack_among(set, tops) {
            look_at(state, dual, steps, queue, state.held.faces(set));
        }
    }
}

/// Sets the keys of all ways at the faces of these tops anew. It costs the members, the sets, and the ways at those faces.
fn look_among(state: &State, dual: &Dual, steps: &Grouped<Step>, queue: &mut Queue, tops: &[bool])
    requires state { IsState dual.now state.now }
    requires steps { steps.now ≡ step_rows dual.now.crosses dual.now.faces }
    requires tops { length tops.now ≡ 2 * (sets_of state.now.family).size }
    requires places { length dual.now.crosses ≤ length queue.old }
    ensures { AreKeyedFor dual.now (sea_of state.now) (λ g. stands_among (sea_of state.now) tops.now g ≡ true) queue.old queue.new }
{
    look_seats_among(state, dual, steps, queue, tops);
    look_stacks_among(state, dual, steps, queue, tops);
}

/// What rests may be entered again, and the keys of the ways at its faces are set anew. It costs the members, the sets, and
/// the ways at those faces, and no more than the sets where nothing rests.
pub fn thaw(
    alloc: Global,
    state: &mut State,
    dual: &Dual,
    steps: &Grouped<Step>,
    queue: &mut Queue,
) -> Result<(), AllocError>
    requires state { IsState dual.now state.old }
    requires keys { AreKeys dual.now state.old queue.old }
    requires steps { steps.now ≡ step_rows dual.now.crosses dual.now.faces }
    ensures tree { state.new.tree ≡ state.old.tree }
    ensures same { IsSameForest state.old state.new }
    ensures awake { OnOk result ((k : ℕ) → slice_index_or state.new.rests.items k false ≡ false) }
    ensures rest { IsRelabelled state.old state.new }
    ensures state { IsState dual.now state.new }
    ensures forest { IsForested dual.now state.old → IsForested dual.now state.new }
    ensures keys { AreKeys dual.now state.new queue.new }
{
    if !state.rests.contains(&true) {
        return Ok(());
    }
    let woken = rouse(alloc, state)?;
    look_among(state, dual, steps, queue, &woken);
    Ok(())
}
