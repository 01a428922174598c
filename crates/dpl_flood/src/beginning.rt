//! The beginning: each odd face is the seat of a member, which is a single without a value and the root of a tree.

ghost use Rattle.std.specs.Prelude.{◌≡◌, ℕ, ◌+◌, ◌*◌, ◌<◌, ◌≤◌, ◌^◌, Some, None, [], List, All, IfOk, length, slice_index, replicate};
ghost use Rattle.dpl_laminar.specs.declared.TheConstants.{MOST_MEMBERS};
ghost use Rattle.dpl_laminar.specs.Storing.{sets_of, AreOnce};
ghost use Rattle.dpl_tree.specs.Stages.{AreRanked};
ghost use Rattle.dpl_flood.specs.Forested.{IsForested, trees_of};
ghost use Rattle.dpl_flood.specs.Holdings.{node_of};
ghost use Rattle.dpl_flood.specs.Queues.{never};
ghost use Rattle.dpl_flood.specs.Runs.{roots_of};
ghost use Rattle.dpl_flood.specs.Starts.{AreSeats, AreSeated, AreFirst, HasBegun};
ghost use Rattle.dpl_flood.specs.States.{AreKeys, IsGround, sea_of};
ghost use Rattle.dpl_flood.specs.Steps.{step_rows};

use crate::arena::Arena;
use crate::held::Held;
use crate::joins::Joins;
use crate::keys::Keys;
use crate::looks::look_around;
use crate::queue::Queue;
use crate::stamped::Stamped;
use crate::state::State;
use crate::ways::Step;
use dpl_dual::Dual;
use dpl_laminar::Family;
use dpl_list::{Grouped, Items};
use dpl_tree::Tree;
use std::alloc::{AllocError, Global};

/// Seats a member at each of these faces.
fn seat_all(arena: &mut Arena, held: &mut Held, faces: &[u32]) -> Result<(), AllocError>
    requires places { All (λ g. g < length held.old.nodes) faces.now }
    requires once { AreOnce faces.now }
    requires blank { arena.old ≡ [] }
    requires open { (g : ℕ) → node_of held.old g ≡ None }
    ensures { IfOk result (λ _. AreSeated faces.now (length faces.now) held.old arena.new held.new) }
{
    for i in 0..faces.len() {
        let node = arena.seat(faces[i])?;
        held.seat(faces[i], node);
    }
    Ok(())
}

/// So many members in their order.
fn members_below(alloc: Global, size: usize) -> Result<Vec<u32>, AllocError>
    requires { size ≤ MOST_MEMBERS }
    ensures length { IfOk result (λ members. length members.items ≡ size) }
    ensures each { IfOk result (λ members. (k : ℕ) → k < size → slice_index members.items k ≡ k) }
{
    let mut members = Vec::new(alloc);
    for i in 0..size {
        members.push(i as u32)?;
    }
    Ok(members)
}

/// So many members without mates.
fn no_mates(alloc: Global, size: usize) -> Result<Vec<Option<u32>>, AllocError>
    ensures { IfOk result (λ mates. mates.items ≡ replicate size None) }
{
    Ok(vec![in alloc; None; size]?)
}

impl State {
    /// The beginning: a member for each of these faces, at time 0, with nodes and places that are lent.
    pub fn start(
        alloc: Global,
        dual: &Dual,
        faces: &[u32],
        nodes: Arena,
        places: Stamped,
    ) -> Result<State, AllocError>
        requires ground { IsGround dual.now }
        requires seats { AreSeats dual.now faces.now }
        ensures begun { IfOk result (HasBegun dual.now) }
        ensures forest { IfOk result (IsForested dual.now) }
        ensures seats { IfOk result (λ x. x.seats ≡ faces.now) }
        ensures roots { IfOk result (λ x. roots_of x ≡ length faces.now) }
        ensures low { IfOk result (λ x. AreRanked (trees_of x) 0) }
    {
        let size = faces.len();
        let mut arena = nodes;
        arena.clear();
        let mut held = Held::new(alloc, places, dual.faces as usize, 2 * size)?;
        seat_all(&mut arena, &mut held, faces)?;
        let family = Family::new(alloc, size as u32)?;
        let members = members_below(alloc, size)?;
        let tree = Tree::of_roots(alloc, &family, members.as_slice(), size)?;
        let mates = no_mates(alloc, size)?;
        let rests = vec![in alloc; false; 2 * size]?;
        let inners = vec![in alloc; 0; size]?;
        let seats = Items::new(Vec::from_slice(alloc, faces)?);
        Ok(State {
            family,
            seats,
            tree,
            mates,
            rests,
            inners,
            held,
            arena,
            joins: Joins::new(alloc),
            time: 0,
        })
    }
}

/// Sets the keys of the ways at these faces anew.
fn look_at_all(state: &State, dual: &Dual, steps: &Grouped<Step>, faces: &[u32], queue: &mut Queue)
    requires begun { HasBegun dual.now state.now }
    requires steps { steps.now ≡ step_rows dual.now.crosses dual.now.faces }
    requires faces { All (λ g. g < dual.now.faces) faces.now }
    requires places { length dual.now.crosses ≤ length queue.old }
    ensures { AreFirst dual.now (sea_of state.now) faces.now (length faces.now) queue.old queue.new }
{
    for i in 0..faces.len() {
        look_around(state, dual, steps, queue, faces[i]);
    }
}

/// The keys at the beginning: those of the ways at seats, at places that are lent.
pub fn first_keys(
    alloc: Global,
    state: &State,
    dual: &Dual,
    steps: &Grouped<Step>,
    lent: Keys,
) -> Result<Queue, AllocError>
    requires begun { HasBegun dual.now state.now }
    requires steps { steps.now ≡ step_rows dual.now.crosses dual.now.faces }
    ensures { IfOk result (λ q. AreKeys dual.now state.now q) }
{
    let ways = dual.crosses.as_slice().len();
    let faces = state.seats.as_slice();
    let mut queue = Queue::new(alloc, lent, ways, 2 * faces.len())?;
    look_at_all(state, dual, steps, faces, &mut queue);
    Ok(queue)
}
