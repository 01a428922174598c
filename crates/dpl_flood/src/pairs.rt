//! The pairs of members, and the chains along which they are joined.

ghost use Rattle.std.specs.Prelude.{◌≡◌, ◌<◌, ◌≤◌, ℕ, All, Some, length, slice_index, IfOk, OnOk};
ghost use Rattle.dpl_laminar.specs.declared.TheConstants.{MOST_MEMBERS};
ghost use Rattle.dpl_laminar.specs.Families.{Sets, load_of};
ghost use Rattle.dpl_laminar.specs.Pairings.{IsPairing, pairs_sum};
ghost use Rattle.dpl_laminar.specs.Storing.{sets_of};
ghost use Rattle.dpl_tree.specs.Stages.{IsCovered, IsRest};
ghost use Rattle.dpl_tree.specs.Views.{mate_in};
ghost use Rattle.dpl_pack.specs.Points.{Point};
ghost use Rattle.dpl_pack.specs.Floods.{AreTight, IsFlood};
ghost use Rattle.dpl_flood.specs.declared.nodes.Join.{Join};
ghost use Rattle.dpl_flood.specs.Arenas.{AreNodes, join_chain};
ghost use Rattle.dpl_flood.specs.Flips.{AreFlipped, AreJoinedBy, AreOverChains, ArePairsJoined};
ghost use Rattle.dpl_flood.specs.Joins.{AreJoins, HaveSeats, dist_in, join_at};

use crate::arena::Arena;
use crate::flipping::flip_join;
use crate::joins::Joins;
use dpl_dual::{Cross, Dual};
use dpl_laminar::Family;
use dpl_tree::pair_inside;
use std::alloc::{AllocError, Global};

/// Joins and parts the edges on the chain of the join that two members have.
fn join_two(
    alloc: Global,
    ways: &[Cross],
    joins: &Joins,
    arena: &Arena,
    from: u32,
    to: u32,
    joined: &mut [bool],
) -> Result<(), AllocError>
    requires nodes { AreNodes ways.now arena.now }
    requires joins { AreJoins ways.now arena.now joins.now }
    requires some { (j : Join) × (join_at joins.now from to ≡ Some j) }
    requires places { All (λ x. x.edge < length joined.old) ways.now }
    ensures { OnOk result ((j : Join) → join_at joins.now from to ≡ Some j →
        AreFlipped (join_chain ways.now arena.now j) joined.old joined.new) }
{
    match joins.find(from, to) {
        Some(join) => flip_join(alloc, ways, arena, join, joined),
        None => unreachable!(),
    }
}

/// Joins the faces of each pair along the chain of their join.
pub fn join_pairs(
    alloc: Global,
    ways: &[Cross],
    seats: &[u32],
    joins: &Joins,
    arena: &Arena,
    mate: &[u32],
    joined: &mut [bool],
) -> Result<(), AllocError>
    requires nodes { AreNodes ways.now arena.now }
    requires joins { AreJoins ways.now arena.now joins.now }
    requires seats { HaveSeats arena.now seats.now }
    requires few { length seats.now ≤ MOST_MEMBERS }
    requires members { length mate.now ≡ length seats.now }
    requires pairing { IsPairing (length seats.now) (slice_index mate.now) }
    requires some { (m : ℕ) → m < length seats.now →
        (j : Join) × (join_at joins.now m (slice_index mate.now m) ≡ Some j) }
    requires places { All (λ x. x.edge < length joined.old) ways.now }
    ensures { OnOk result ((f : Sets) → ArePairsJoined ways.now seats.now (slice_index mate.now)
        (dist_in ways.now arena.now joins.now f) (length seats.now) joined.old joined.new) }
{
    for i in 0..mate.len() {
        let other = mate[i];
        if i < other as usize {
            join_two(alloc, ways, joins, arena, i as u32, other, joined)?;
        }
    }
    Ok(())
}

/// The mates of all members, where the tops of a family have theirs, with the faces of each pair joined along the chain of
/// their join. These chains together are as long as the values of the family, and no pairing over chains is shorter.
pub fn join_all(
    alloc: Global,
    dual: &Dual,
    seats: &[u32],
    family: &Family,
    mates: &mut [Option<u32>],
    joins: &Joins,
    arena: &Arena,
    joined: &mut [bool],
) -> Result<Vec<u32>, AllocError>
    requires flood { (point : ℕ → Point) × IsFlood dual.now seats.now (sets_of family.now) point }
    requires nodes { AreNodes dual.now.crosses arena.now }
    requires joins { AreJoins dual.now.crosses arena.now joins.now }
    requires seats { HaveSeats arena.now seats.now }
    requires members { (sets_of family.now).size ≡ length seats.now }
    requires mates { length mates.old ≡ length seats.now }
    requires rest { IsRest (sets_of family.now).size (sets_of family.now)
        (dist_in dual.now.crosses arena.now joins.now (sets_of family.now)) (mate_in mates.old) }
    requires covered { (k : ℕ) → k < (sets_of family.now).size →
        IsCovered (sets_of family.now).size (sets_of family.now) (mate_in mates.old) k }
    requires places { All (λ x. x.edge < length joined.old) dual.now.crosses }
    ensures count { IfOk result (λ r. length r.items ≡ length seats.now) }
    ensures tight { IfOk result (λ r. AreTight dual.now seats.now (sets_of family.now) (slice_index r.items)) }
    ensures joined { OnOk result (AreJoinedBy dual.now seats.now (sets_of family.now) joined.old joined.new) }
    ensures least { (other : ℕ → ℕ) (long : ℕ → ℕ → ℕ) → IsPairing (sets_of family.now).size other →
        AreOverChains dual.now.crosses seats.now long →
        IfOk result (λ r. pairs_sum (sets_of family.now).size (slice_index r.items) (load_of (sets_of family.now))
        ≤ pairs_sum (sets_of family.now).size other long) }
{
    let mate = pair_inside(alloc, family, mates)?;
    join_pairs(
        alloc,
        dual.crosses.as_slice(),
        seats,
        joins,
        arena,
        &mate,
        joined,
    )?;
    Ok(mate)
}
