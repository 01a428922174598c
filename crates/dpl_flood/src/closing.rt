//! A single that has come to nothing, and the tops on its two sides, become one.

ghost use Rattle.std.specs.Prelude.{◌≡◌, ◌<◌, Some, OnOk};
ghost use Rattle.dpl_laminar.specs.Families.{load_of};
ghost use Rattle.dpl_laminar.specs.Storing.{sets_of};
ghost use Rattle.dpl_dual.specs.declared.crosses.Dual.{Dual};
ghost use Rattle.dpl_flood.specs.Closed.{AreSides, HasTiedThrough};
ghost use Rattle.dpl_flood.specs.Events.{IsSpent};
ghost use Rattle.dpl_flood.specs.Forested.{IsForested, IsNearer, dist_of};
ghost use Rattle.dpl_flood.specs.Joins.{join_at};
ghost use Rattle.dpl_flood.specs.States.{AreKeys};
ghost use Rattle.dpl_flood.specs.Steps.{step_rows};

use crate::folding::fold;
use crate::nodes::Join;
use crate::queue::Queue;
use crate::state::State;
use crate::ways::Step;
use dpl_dual::Dual;
use dpl_laminar::Steps;
use dpl_list::Grouped;
use std::alloc::{AllocError, Global};
use std::sync::ledger::Ledger;

/// The members on both sides of a single that falls: the one from which its tree enters it, and its mate.
fn sides_of(state: &State, single: u32) -> (u32, u32)
    requires forest { (d : Dual) × IsForested d state.now }
    requires spent { IsSpent state.now single }
    requires single { single < (sets_of state.now.family).size }
    ensures { (d : Dual) → IsForested d state.now → AreSides d state.now single result }
{
    let (from, _) = state.tree.link(single);
    match state.mates[single as usize] {
        Some(to) => (from, to),
        None => unreachable!(),
    }
}

/// The join from a member to another one that is tight to it.
fn join_of(state: &State, from: u32, to: u32) -> Join
    requires { (d : Dual) × (load_of (sets_of state.now.family) from to ≡ dist_of d state.now from to) }
    ensures { join_at state.now.joins from to ≡ Some result }
{
    match state.joins.find(from, to) {
        Some(join) => join,
        None => unreachable!(),
    }
}

/// Notes what the members on both sides of a single have through its seat.
fn tie_through(
    state: &mut State,
    dual: &Dual,
    single: u32,
    sides: (u32, u32),
) -> Result<(), AllocError>
    requires forest { IsForested dual.now state.old }
    requires sides { AreSides dual.now state.old single sides }
    ensures { OnOk result (HasTiedThrough dual.now state.old state.new sides) }
{
    let (from, to) = sides;
    let first = join_of(state, from, single);
    let second = join_of(state, single, to);
    let join = state.arena.through(dual.crosses.as_slice(), first, second)?;
    state.joins.note(state.arena.nodes(), join)?;
    Ok(())
}

/// A single that falls has come to nothing. What the members on both sides have through its seat is noted, and one set is
/// made of it and the tops on both sides, with the ways to where these meet.
pub fn close<L: Ledger>(
    alloc: Global,
    state: &mut State,
    dual: &Dual,
    ways: &Grouped<Step>,
    queue: &mut Queue,
    single: u32,
    steps: &mut Steps<L>,
) -> Result<(), AllocError>
    requires forest { IsForested dual.now state.old }
    requires keys { AreKeys dual.now state.old queue.old }
    requires ways { ways.now ≡ step_rows dual.now.crosses dual.now.faces }
    requires spent { IsSpent state.old single }
    requires single { single < (sets_of state.old.family).size }
    ensures forest { OnOk result (IsForested dual.now state.new) }
    ensures keys { OnOk result (AreKeys dual.now state.new queue.new) }
    ensures nearer { OnOk result (IsNearer state.old state.new) }
{
    let sides = sides_of(state, single);
    tie_through(state, dual, single, sides)?;
    fold(alloc, state, dual, ways, queue, sides, steps)?;
    Ok(())
}
