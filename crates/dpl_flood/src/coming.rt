//! What the first key tells when it comes up.

ghost use Rattle.std.specs.Prelude.{◌≡◌, ℕ, ◌+◌, ◌*◌, ◌<◌, ◌≤◌, false, length, slice_index, IfSome, MatchOption};
ghost use Rattle.dpl_laminar.specs.Storing.{sets_of};
ghost use Rattle.dpl_dual.specs.declared.crosses.Dual.{Dual};
ghost use Rattle.dpl_dual.specs.Duals.{way_at};
ghost use Rattle.dpl_flood.specs.declared.state.State.{State};
ghost use Rattle.dpl_flood.specs.Arenas.{IsOver};
ghost use Rattle.dpl_flood.specs.Events.{HasCome, IsLater};
ghost use Rattle.dpl_flood.specs.Holdings.{stack_of};
ghost use Rattle.dpl_flood.specs.Queues.{IsFirst, never};
ghost use Rattle.dpl_flood.specs.Seas.{HaveMet, due_of};
ghost use Rattle.dpl_flood.specs.Standings.{IsHeldAs};
ghost use Rattle.dpl_flood.specs.States.{IsState, AreKeys, sea_of, fall_of};

use crate::event::{Crossing, Event};
use crate::looks::{look_set, look_way};
use crate::queue::Queue;
use crate::standing::Standing;
use crate::state::State;
use crate::ways::way_of;
use dpl_dual::Dual;
use dpl_tree::Label;

/// Two tops have met over a way: the one that grows comes first.
fn meeting(one: &Standing, two: &Standing, ahead: Crossing) -> Event
    ensures { (d : Dual) (x : State) → IsState d x → IsOver d.crosses ahead.from ahead.way ahead.to →
        HaveMet (sea_of x) ahead.from ahead.to (way_at d.crosses ahead.way).length →
        IsHeldAs (sea_of x) ahead.from one.now → IsHeldAs (sea_of x) ahead.to two.now →
        one.now.rests ≡ false → two.now.rests ≡ false → HasCome d x result }
{
    let back = Crossing {
        from: ahead.to,
        way: ahead.way,
        to: ahead.from,
    };
    match one.label {
        Label::Outer => match two.label {
            Label::Outer => Event::Meet(ahead),
            _ => Event::Grow(ahead),
        },
        _ => Event::Grow(back),
    }
}

/// What comes on a way whose key has come up: nothing if it was too early.
fn come_on(state: &State, dual: &Dual, way: u32) -> Option<Event>
    requires state { IsState dual.now state.now }
    requires way { way < length dual.now.crosses }
    ensures { MatchOption result (state.now.time < due_of dual.now (sea_of state.now) never way)
        (HasCome dual.now state.now) }
{
    if state.time < state.look(dual, way) {
        return None;
    }
    let cross = way_of(dual.crosses.as_slice(), way);
    let ahead = Crossing {
        from: cross.f,
        way,
        to: cross.g,
    };
    let back = Crossing {
        from: cross.g,
        way,
        to: cross.f,
    };
    match state.standing(cross.f) {
        Some(one) => match state.standing(cross.g) {
            Some(two) => Some(meeting(&one, &two, ahead)),
            None => Some(Event::Take(ahead)),
        },
        None => Some(Event::Take(back)),
    }
}

/// What comes of a set whose key has come up: nothing if it was too early.
fn come_of(state: &State, set: u32) -> Option<Event>
    requires state { (d : Dual) × IsState d state.now }
    requires set { set < 2 * (sets_of state.now.family).size }
    ensures { MatchOption result (state.now.time < fall_of (sea_of state.now) (stack_of state.now.held) set)
        (λ e. (d : Dual) → IsState d state.now → HasCome d state.now e) }
{
    if state.time < state.fall(set) {
        return None;
    }
    match state.held.last(set) {
        Some(_) => Some(Event::Leave(set)),
        None => Some(Event::GiveWay(set)),
    }
}

/// What comes up on a way with the first key.
fn next_on(state: &State, dual: &Dual, queue: &mut Queue, way: u32) -> Option<Event>
    requires state { IsState dual.now state.now }
    requires keys { AreKeys dual.now state.now queue.old }
    requires way { way < length dual.now.crosses }
    requires now { slice_index queue.old way ≤ state.now.time }
    ensures come { MatchOption result (IsLater dual.now state.now queue.old queue.new) (HasCome dual.now state.now) }
    ensures same { IfSome result (λ _. queue.new ≡ queue.old) }
    ensures keys { AreKeys dual.now state.now queue.new }
{
    match come_on(state, dual, way) {
        Some(event) => Some(event),
        None => {
            look_way(state, dual, queue, way);
            None
        }
    }
}

/// What comes up of a set with the first key.
fn next_of(state: &State, dual: &Dual, queue: &mut Queue, set: u32) -> Option<Event>
    requires state { IsState dual.now state.now }
    requires keys { AreKeys dual.now state.now queue.old }
    requires set { set < 2 * (sets_of state.now.family).size }
    requires now { slice_index queue.old (length dual.now.crosses + set) ≤ state.now.time }
    ensures come { MatchOption result (IsLater dual.now state.now queue.old queue.new) (HasCome dual.now state.now) }
    ensures same { IfSome result (λ _. queue.new ≡ queue.old) }
    ensures keys { AreKeys dual.now state.now queue.new }
{
    match come_of(state, set) {
        Some(event) => Some(event),
        None => {
            look_set(state, dual, queue, set);
            None
        }
    }
}

/// What comes up at the first key, whose time has come. If it was too early it is set anew, and nothing is told: then fewer
/// keys are early than before.
pub fn next(state: &State, dual: &Dual, queue: &mut Queue) -> Option<Event>
    requires state { IsState dual.now state.now }
    requires keys { AreKeys dual.now state.now queue.old }
    requires some { 0 < length queue.old }
    requires now { (key : ℕ) → IsFirst queue.old key → key ≤ state.now.time }
    ensures come { MatchOption result (IsLater dual.now state.now queue.old queue.new) (HasCome dual.now state.now) }
    ensures same { IfSome result (λ _. queue.new ≡ queue.old) }
    ensures keys { AreKeys dual.now state.now queue.new }
{
    let place = queue.place();
    let ways = dual.crosses.as_slice().len();
    if place < ways {
        return next_on(state, dual, queue, place as u32);
    }
    next_of(state, dual, queue, (place - ways) as u32)
}
