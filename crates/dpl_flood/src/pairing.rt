//! Moats around odd faces, from the beginning to the end.

ghost use Rattle.std.specs.Prelude.{◌≡◌, ◌<◌, ◌≤◌, ◌%◌, ◌^◌, ℕ, All, length, slice_index, IfOk, OnOk};
ghost use Rattle.dpl_laminar.specs.Families.{load_of};
ghost use Rattle.dpl_laminar.specs.Pairings.{IsPairing, pairs_sum};
ghost use Rattle.dpl_laminar.specs.Storing.{sets_of};
ghost use Rattle.dpl_tree.specs.steps.Forests.{free};
ghost use Rattle.dpl_pack.specs.Floods.{AreTight};
ghost use Rattle.dpl_flood.specs.Flips.{AreJoinedBy, AreOverChains};
ghost use Rattle.dpl_flood.specs.Forested.{IsForested, trees_of};
ghost use Rattle.dpl_flood.specs.Starts.{AreSeats};
ghost use Rattle.dpl_flood.specs.States.{IsGround, IsState};
ghost use Rattle.dpl_flood.specs.Steps.{step_rows};

use crate::beginning::first_keys;
use crate::ending::finish;
use crate::keys::Keys;
use crate::lent::Lent;
use crate::running::run;
use crate::state::State;
use crate::ways::Step;
use dpl_dual::Dual;
use dpl_laminar::Steps;
use dpl_list::Grouped;
use std::alloc::{AllocError, Global};
use std::sync::ledger::Ledger;

/// The moats around an even number of faces of one part, grown until each face has its mate.
fn grow_all<L: Ledger>(
    alloc: Global,
    dual: &Dual,
    ways: &Grouped<Step>,
    faces: &[u32],
    lent: Lent,
    steps: &mut Steps<L>,
) -> Result<(State, Keys), AllocError>
    requires ground { IsGround dual.now }
    requires seats { AreSeats dual.now faces.now }
    requires even { length faces.now % 2 ≡ 0 }
    requires near { AreOverChains dual.now.crosses faces.now (λ s t. 2 ^ 51) }
    requires ways { ways.now ≡ step_rows dual.now.crosses dual.now.faces }
    ensures forest { IfOk result (λ r. IsForested dual.now r.0) }
    ensures none { IfOk result (λ r. (i : ℕ) → (trees_of r.0).place i ≡ free) }
    ensures seats { IfOk result (λ r. r.0.seats ≡ faces.now) }
{
    let Lent {
        nodes,
        places,
        keys,
    } = lent;
    let mut state = State::start(alloc, dual, faces, nodes, places)?;
    let mut queue = first_keys(alloc, &state, dual, ways, keys)?;
    run(alloc, &mut state, dual, ways, &mut queue, steps)?;
    Ok((state, queue.give_back()))
}

/// Moats that are grown, the mates of their members, and the keys that were lent.
#[derive(Drop)]
pub struct Paired {
    pub state: State,
    pub mate: Vec<u32>,
    pub keys: Keys,
}

/// The moats around an even number of faces of one part, grown until each face has its mate, and the mates. The faces of
/// each pair are joined along a chain, and no pairing over chains is shorter.
pub fn pair_faces<L: Ledger>(
    alloc: Global,
    dual: &Dual,
    ways: &Grouped<Step>,
    faces: &[u32],
    lent: Lent,
    joined: &mut [bool],
    steps: &mut Steps<L>,
) -> Result<Paired, AllocError>
    requires ground { IsGround dual.now }
    requires seats { AreSeats dual.now faces.now }
    requires even { length faces.now % 2 ≡ 0 }
    requires near { AreOverChains dual.now.crosses faces.now (λ s t. 2 ^ 51) }
    requires ways { ways.now ≡ step_rows dual.now.crosses dual.now.faces }
    requires places { All (λ x. x.edge < length joined.old) dual.now.crosses }
    ensures state { IfOk result (λ r. IsState dual.now r.state) }
    ensures seats { IfOk result (λ r. r.state.seats ≡ faces.now) }
    ensures count { IfOk result (λ r. length r.mate.items ≡ length faces.now) }
    ensures tight { IfOk result (λ r. AreTight dual.now faces.now (sets_of r.state.family) (slice_index r.mate.items)) }
    ensures joined { IfOk result (λ r. AreJoinedBy dual.now faces.now (sets_of r.state.family) joined.old joined.new) }
    ensures least { (other : ℕ → ℕ) (long : ℕ → ℕ → ℕ) → IsPairing (length faces.now) other →
        AreOverChains dual.now.crosses faces.now long →
        IfOk result (λ r. pairs_sum (length faces.now) (slice_index r.mate.items) (load_of (sets_of r.state.family))
        ≤ pairs_sum (length faces.now) other long) }
{
    let (mut state, keys) = grow_all(alloc, dual, ways, faces, lent, steps)?;
    let mate = finish(alloc, dual, &mut state, joined)?;
    Ok(Paired { state, mate, keys })
}
