//! The end: no tree is left, so each top has its mate.

ghost use Rattle.std.specs.Prelude.{◌≡◌, ◌<◌, ◌≤◌, ℕ, All, length, slice_index, IfOk, OnOk};
ghost use Rattle.dpl_laminar.specs.Families.{load_of};
ghost use Rattle.dpl_laminar.specs.Pairings.{IsPairing, pairs_sum};
ghost use Rattle.dpl_laminar.specs.Storing.{sets_of};
ghost use Rattle.dpl_tree.specs.steps.Forests.{free};
ghost use Rattle.dpl_pack.specs.Floods.{AreTight};
ghost use Rattle.dpl_flood.specs.Flips.{AreJoinedBy, AreOverChains};
ghost use Rattle.dpl_flood.specs.Forested.{IsForested, trees_of};
ghost use Rattle.dpl_flood.specs.States.{IsState};

use crate::pairs::join_all;
use crate::state::State;
use dpl_dual::Dual;
use std::alloc::{AllocError, Global};

/// The mates of all members where no tree is left, with the faces of each pair joined along the chain of their join: no
/// pairing over chains is shorter. The moats stay as they are.
pub fn finish(
    alloc: Global,
    dual: &Dual,
    state: &mut State,
    joined: &mut [bool],
) -> Result<Vec<u32>, AllocError>
    requires forest { IsForested dual.now state.old }
    requires none { (i : ℕ) → (trees_of state.old).place i ≡ free }
    requires places { All (λ x. x.edge < length joined.old) dual.now.crosses }
    ensures count { IfOk result (λ r. length r.items ≡ length state.old.seats) }
    ensures tight { IfOk result (λ r. AreTight dual.now state.old.seats (sets_of state.old.family) (slice_index r.items)) }
    ensures joined { OnOk result (AreJoinedBy dual.now state.old.seats (sets_of state.old.family) joined.old joined.new) }
    ensures least { (other : ℕ → ℕ) (long : ℕ → ℕ → ℕ) → IsPairing (sets_of state.old.family).size other →
        AreOverChains dual.now.crosses state.old.seats long →
        IfOk result (λ r. pairs_sum (sets_of state.old.family).size (slice_index r.items) (load_of (sets_of state.old.family))
        ≤ pairs_sum (sets_of state.old.family).size other long) }
    ensures state { IsState dual.now state.new }
    ensures seats { state.new.seats ≡ state.old.seats }
    ensures family { state.new.family ≡ state.old.family }
{
    join_all(
        alloc,
        dual,
        state.seats.as_slice(),
        &state.family,
        &mut state.mates,
        &state.joins,
        &state.arena,
        joined,
    )
}
