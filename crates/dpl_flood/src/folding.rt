//! A ring of tops of a tree becomes one top.

ghost use Rattle.std.specs.Prelude.{◌≡◌, ◌≤◌, ◌+◌, ℕ, slice_index, IfOk, OnOk};
ghost use Rattle.dpl_laminar.specs.Storing.{sets_of};
ghost use Rattle.dpl_dual.specs.declared.crosses.Dual.{Dual};
ghost use Rattle.dpl_flood.specs.Foldings.{IsFolded};
ghost use Rattle.dpl_flood.specs.Forested.{IsForested, IsNearer, IsTied};
ghost use Rattle.dpl_flood.specs.States.{AreKeys};
ghost use Rattle.dpl_flood.specs.Steps.{step_rows};

use crate::looks::look_top;
use crate::queue::Queue;
use crate::state::State;
use crate::totals::{add_tops, drop_tops};
use crate::ways::Step;
use dpl_dual::Dual;
use dpl_laminar::Steps;
use dpl_list::Grouped;
use std::alloc::{AllocError, Global};
use std::sync::ledger::Ledger;

/// Makes one top of the two ways from two tight members of one tree to where they meet, and gives its number. What a member
/// has in all stays, so the sums inside the tops are found by way of it.
fn fold_ring<L: Ledger>(
    alloc: Global,
    state: &mut State,
    join: (u32, u32),
    steps: &mut Steps<L>,
) -> Result<u32, AllocError>
    requires tied { (d : Dual) × IsTied d state.old join }
    requires same { slice_index state.old.tree.trees.items ((sets_of state.old.family).top join.0)
        ≡ slice_index state.old.tree.trees.items ((sets_of state.old.family).top join.1) }
    ensures folded { IfOk result (IsFolded state.old state.new join) }
    ensures steps { steps.new ≤ steps.old + 1 }
{
    add_tops(&state.family, &mut state.inners);
    let set = dpl_tree::fold(
        alloc,
        &mut state.family,
        &mut state.mates,
        &mut state.tree,
        join,
        steps,
    )?;
    drop_tops(&state.family, &mut state.inners);
    Ok(set)
}

/// Makes one top of the two ways from two tight members of one tree to where they meet. It grows from now on, and the keys
/// that this bears on are set anew.
pub(crate) fn fold<L: Ledger>(
    alloc: Global,
    state: &mut State,
    dual: &Dual,
    ways: &Grouped<Step>,
    queue: &mut Queue,
    join: (u32, u32),
    steps: &mut Steps<L>,
) -> Result<(), AllocError>
    requires tied { IsTied dual.now state.old join }
    requires same { slice_index state.old.tree.trees.items ((sets_of state.old.family).top join.0)
        ≡ slice_index state.old.tree.trees.items ((sets_of state.old.family).top join.1) }
    requires keys { AreKeys dual.now state.old queue.old }
    requires ways { ways.now ≡ step_rows dual.now.crosses dual.now.faces }
    ensures forest { OnOk result (IsForested dual.now state.new) }
    ensures keys { OnOk result (AreKeys dual.now state.new queue.new) }
    ensures nearer { OnOk result (IsNearer state.old state.new) }
    ensures steps { steps.new ≤ steps.old + 1 }
{
    let set = fold_ring(alloc, state, join, steps)?;
    look_top(state, dual, ways, queue, set);
    Ok(())
}
