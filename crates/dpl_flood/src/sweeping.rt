//! What comes until a tree changes: keys that were early are set anew, time passes, and faces are taken and left.

ghost use Rattle.std.specs.Prelude.{◌≡◌, ◌≢◌, ℕ, ◌+◌, ◌<◌, ◌≤◌, false, length, slice_index, slice_index_or, IfOk, IfSome, MatchOption};
ghost use Rattle.dpl_flood.specs.Dues.{NoneRests};
ghost use Rattle.dpl_flood.specs.Events.{HasCome, due_in};
ghost use Rattle.dpl_flood.specs.Forested.{IsForested};
ghost use Rattle.dpl_flood.specs.Queues.{IsFirst};
ghost use Rattle.dpl_flood.specs.Seas.{early_keys, faces_left, tide_of};
ghost use Rattle.dpl_flood.specs.States.{IsState, AreKeys, sea_of};
ghost use Rattle.dpl_flood.specs.Steps.{step_rows};
ghost use Rattle.dpl_flood.specs.Sweeps.{AreTwo, IsSwept, IsQuiet, IsOfTrees};

use crate::coming::next;
use crate::event::Event;
use crate::passing::advance;
use crate::queue::Queue;
use crate::shifting::{reach, retreat};
use crate::state::State;
use crate::thawing::thaw;
use crate::ways::Step;
use dpl_dual::Dual;
use dpl_laminar::Steps;
use dpl_list::Grouped;
use std::alloc::{AllocError, Global};
use std::sync::ledger::Ledger;

/// What comes now: nothing where no key is up. Keys that were early are set anew.
fn next_now(state: &State, dual: &Dual, queue: &mut Queue) -> Option<Event>
    requires state { IsState dual.now state.now }
    requires keys { AreKeys dual.now state.now queue.old }
    requires some { 0 < length queue.old }
    ensures come { MatchOption result (IsQuiet state.now queue.new) (HasCome dual.now state.now) }
    ensures keys { AreKeys dual.now state.now queue.new }
    ensures fewer { early_keys (length queue.new) (due_in dual.now state.now) (slice_index queue.new) ≤
        early_keys (length queue.old) (due_in dual.now state.now) (slice_index queue.old) }
    ensures less { (key : ℕ) → result ≡ None → IsFirst queue.old key → key ≤ state.now.time →
        early_keys (length queue.new) (due_in dual.now state.now) (slice_index queue.new) <
        early_keys (length queue.old) (due_in dual.now state.now) (slice_index queue.old) }
{
    'early: while queue.first() <= state.time {
        match next(state, dual, queue) {
            Some(event) => return Some(event),
            None => {}
        }
    }
    None
}

/// What comes next where nothing rests and no key is up: time passes until then.
fn next_later<L: Ledger>(
    state: &mut State,
    dual: &Dual,
    queue: &mut Queue,
    steps: &mut Steps<L>,
) -> Event
    requires state { IsState dual.now state.old }
    requires keys { AreKeys dual.now state.old queue.old }
    requires some { 0 < length queue.old }
    requires two { AreTwo dual.now state.old }
    requires awake { NoneRests (tide_of dual.now (sea_of state.old)) }
    requires quiet { IsQuiet state.old queue.old }
    ensures come { HasCome dual.now state.new result }
    ensures swept { IsSwept state.old state.new }
    ensures faces { faces_left dual.now (sea_of state.new) ≡ faces_left dual.now (sea_of state.old) }
    ensures state { IsState dual.now state.new }
    ensures forest { IsForested dual.now state.old → IsForested dual.now state.new }
    ensures keys { AreKeys dual.now state.new queue.new }
    ensures places { length queue.new ≡ length queue.old }
{
    'times: loop {
        advance(state, dual, queue, steps);
        match next_now(state, dual, queue) {
            Some(event) => return event,
            None => {}
        }
    }
}

/// What comes next, now or later. What rests wakes where nothing else comes now.
pub fn come<L: Ledger>(
    alloc: Global,
    state: &mut State,
    dual: &Dual,
    ways: &Grouped<Step>,
    queue: &mut Queue,
    steps: &mut Steps<L>,
) -> Result<Event, AllocError>
    requires state { IsState dual.now state.old }
    requires keys { AreKeys dual.now state.old queue.old }
    requires ways { ways.now ≡ step_rows dual.now.crosses dual.now.faces }
    requires some { 0 < length queue.old }
    requires two { AreTwo dual.now state.old }
    ensures come { IfOk result (HasCome dual.now state.new) }
    ensures swept { IfOk result (λ _. IsSwept state.old state.new) }
    ensures faces { faces_left dual.now (sea_of state.new) ≡ faces_left dual.now (sea_of state.old) }
    ensures state { IsState dual.now state.new }
    ensures forest { IsForested dual.now state.old → IsForested dual.now state.new }
    ensures keys { AreKeys dual.now state.new queue.new }
    ensures places { length queue.new ≡ length queue.old }
{
    match next_now(state, dual, queue) {
        Some(event) => return Ok(event),
        None => {}
    }
    thaw(alloc, state, dual, ways, queue)?;
    match next_now(state, dual, queue) {
        Some(event) => return Ok(event),
        None => {}
    }
    Ok(next_later(state, dual, queue, steps))
}

/// Lets time pass and takes and leaves faces until a tree changes: answers by what.
pub fn sweep<L: Ledger>(
    alloc: Global,
    state: &mut State,
    dual: &Dual,
    ways: &Grouped<Step>,
    queue: &mut Queue,
    steps: &mut Steps<L>,
) -> Result<Event, AllocError>
    requires state { IsState dual.now state.old }
    requires keys { AreKeys dual.now state.old queue.old }
    requires ways { ways.now ≡ step_rows dual.now.crosses dual.now.faces }
    requires some { 0 < length queue.old }
    requires two { AreTwo dual.now state.old }
    ensures come { IfOk result (HasCome dual.now state.new) }
    ensures trees { IfOk result IsOfTrees }
    ensures swept { IfOk result (λ _. IsSwept state.old state.new) }
    ensures state { IsState dual.now state.new }
    ensures forest { IsForested dual.now state.old → IsForested dual.now state.new }
    ensures keys { AreKeys dual.now state.new queue.new }
{
    'faces: loop {
        let event = come(alloc, state, dual, ways, queue, steps)?;
        match event {
            Event::Take(ahead) => reach(state, dual, ways, queue, ahead)?,
            Event::Leave(set) => retreat(state, dual, ways, queue, set),
            _ => return Ok(event),
        }
    }
}
