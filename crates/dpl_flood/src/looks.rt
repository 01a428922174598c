//! The keys of ways and sets: those of the ways, and behind them those of the sets.

ghost use Rattle.std.specs.Prelude.{◌≡◌, ◌+◌, ◌*◌, ◌<◌, ◌≤◌, ◌==◌, true, All, length, reverse, slice_index, slice_set};
ghost use Rattle.dpl_laminar.specs.Families.{has};
ghost use Rattle.dpl_laminar.specs.Storing.{sets_of};
ghost use Rattle.dpl_flood.specs.Dues.{AreLooked};
ghost use Rattle.dpl_flood.specs.Holdings.{stack_of};
ghost use Rattle.dpl_flood.specs.Queues.{never};
ghost use Rattle.dpl_flood.specs.Seas.{sides_of, tide_of, due_of};
ghost use Rattle.dpl_flood.specs.States.{IsState, sea_of, fall_of, AreKeyed, AreKeyedAround, AreKeyedOn, AreKeyedFor, IsStackedOn, SeatsOf, StacksOf};
ghost use Rattle.dpl_flood.specs.Steps.{step_rows};

use crate::queue::Queue;
use crate::state::State;
use crate::ways::Step;
use dpl_dual::Dual;
use dpl_list::Grouped;

/// Sets the keys of the ways of these steps anew.
fn look_over(state: &State, dual: &Dual, steps: &[Step], queue: &mut Queue)
    requires state { IsState dual.now state.now }
    requires steps { All (λ y. y.way < length dual.now.crosses) steps.now }
    requires places { length dual.now.crosses ≤ length queue.old }
    ensures { AreKeyed dual.now (sea_of state.now) steps.now (length steps.now) queue.old queue.new }
{
    for i in 0..steps.len() {
        let way = steps[i].way;
        queue.set(way as usize, state.look(dual, way));
    }
}

/// Sets the keys of all ways at a face anew. It costs the ways at the face.
pub fn look_around(state: &State, dual: &Dual, steps: &Grouped<Step>, queue: &mut Queue, face: u32)
    requires state { IsState dual.now state.now }
    requires steps { steps.now ≡ step_rows dual.now.crosses dual.now.faces }
    requires face { face < dual.now.faces }
    requires places { length dual.now.crosses ≤ length queue.old }
    ensures keys { AreKeyedAround dual.now (sea_of state.now) face queue.old queue.new }
    ensures looked { AreLooked (length dual.now.crosses) (sides_of dual.now) (tide_of dual.now (sea_of state.now))
        state.now.time (λ g. g == face) (slice_index queue.old) (slice_index queue.new) }
{
    look_over(state, dual, steps.row(face as usize), queue);
}

/// Sets the keys of all ways at these faces anew.
pub fn look_at(state: &State, dual: &Dual, steps: &Grouped<Step>, queue: &mut Queue, faces: &[u32])
    requires state { IsState dual.now state.now }
    requires steps { steps.now ≡ step_rows dual.now.crosses dual.now.faces }
    requires faces { All (λ g. g < dual.now.faces) faces.now }
    requires places { length dual.now.crosses ≤ length queue.old }
    ensures { AreKeyedFor dual.now (sea_of state.now) (λ g. has (reverse faces.now) g ≡ true) queue.old queue.new }
{
    for i in 0..faces.len() {
        look_around(state, dual, steps, queue, faces[i]);
    }
}

/// Sets the keys of all ways at the seats of these members anew.
fn look_seats(state: &State, dual: &Dual, steps: &Grouped<Step>, queue: &mut Queue, members: &[u32])
    requires state { IsState dual.now state.now }
    requires steps { steps.now ≡ step_rows dual.now.crosses dual.now.faces }
    requires members { All (λ m. m < (sets_of state.now.family).size) members.now }
    requires places { length dual.now.crosses ≤ length queue.old }
    ensures { AreKeyedFor dual.now (sea_of state.now) (SeatsOf state.now.seats members.now (length members.now))
        queue.old queue.new }
{
    let seats = state.seats.as_slice();
    for i in 0..members.len() {
        look_around(state, dual, steps, queue, seats[members[i] as usize]);
    }
}

/// Sets the keys of all ways at the faces that a set took anew, if these stand on a top.
fn look_stack(
    state: &State,
    dual: &Dual,
    steps: &Grouped<Step>,
    queue: &mut Queue,
    set: u32,
    top: u32,
)
    requires state { IsState dual.now state.now }
    requires steps { steps.now ≡ step_rows dual.now.crosses dual.now.faces }
    requires set { set < 2 * (sets_of state.now.family).size }
    requires top { top < 2 * (sets_of state.now.family).size }
    requires places { length dual.now.crosses ≤ length queue.old }
    ensures { AreKeyedFor dual.now (sea_of state.now) (IsStackedOn (sea_of state.now) (stack_of state.now.held) top set)
        queue.old queue.new }
{
    if state.is_stack_on(set, top) {
        look_at(state, dual, steps, queue, state.held.faces(set));
    }
}

/// Sets the keys of all ways at the faces that the sets of these members took anew, as far as these stand on a top. A set has the
/// number of a member of it, and a greater one the same behind those of the singles.
fn look_stacks(
    state: &State,
    dual: &Dual,
    steps: &Grouped<Step>,
    queue: &mut Queue,
    members: &[u32],
    top: u32,
)
    requires state { IsState dual.now state.now }
    requires steps { steps.now ≡ step_rows dual.now.crosses dual.now.faces }
    requires members { All (λ m. m < (sets_of state.now.family).size) members.now }
    requires top { top < 2 * (sets_of state.now.family).size }
    requires places { length dual.now.crosses ≤ length queue.old }
    ensures { AreKeyedFor dual.now (sea_of state.now) (StacksOf (sea_of state.now) (stack_of state.now.held) top
        members.now (length members.now)) queue.old queue.new }
{
    let size = state.inners.len() as u32;
    for i in 0..members.len() {
        look_stack(state, dual, steps, queue, members[i], top);
        look_stack(state, dual, steps, queue, size + members[i], top);
    }
}

/// Sets the keys of all ways at the faces of a top anew. It costs its members, and the ways at its faces.
pub fn look_top(state: &State, dual: &Dual, steps: &Grouped<Step>, queue: &mut Queue, top: u32)
    requires state { IsState dual.now state.now }
    requires steps { steps.now ≡ step_rows dual.now.crosses dual.now.faces }
    requires top { top < 2 * (sets_of state.now.family).size }
    requires places { length dual.now.crosses ≤ length queue.old }
    ensures keys { AreKeyedOn dual.now (sea_of state.now) top dual.now.faces queue.old queue.new }
{
    let members = state.family.members(top);
    look_seats(state, dual, steps, queue, members);
    look_stacks(state, dual, steps, queue, members, top);
}

/// Sets the key of a way anew.
pub fn look_way(state: &State, dual: &Dual, queue: &mut Queue, way: u32)
    requires state { IsState dual.now state.now }
    requires way { way < length dual.now.crosses }
    requires places { length dual.now.crosses ≤ length queue.old }
    ensures { queue.new ≡ slice_set queue.old way (due_of dual.now (sea_of state.now) never way) }
{
    queue.set(way as usize, state.look(dual, way));
}

/// Sets the key of a set anew.
pub fn look_set(state: &State, dual: &Dual, queue: &mut Queue, set: u32)
    requires state { IsState dual.now state.now }
    requires set { set < 2 * (sets_of state.now.family).size }
    requires places { length queue.old ≡ length dual.now.crosses + 2 * (sets_of state.now.family).size }
    ensures { queue.new ≡ slice_set queue.old (length dual.now.crosses + set)
        (fall_of (sea_of state.now) (stack_of state.now.held) set) }
{
    let ways = dual.crosses.as_slice().len();
    queue.set(ways + set as usize, state.fall(set));
}
