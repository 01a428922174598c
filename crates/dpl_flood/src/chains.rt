//! What follows of chains, joins and steps.

ghost use Rattle.std.specs.Prelude.{List, ◌≡◌, ◌≢◌, ◌<◌, ◌%◌, ℕ, All, [], length, slice_index_or, Contains};
ghost use Rattle.dpl_dual.specs.declared.crosses.Cross.{Cross};
ghost use Rattle.dpl_dual.specs.Chains.{IsAt, Leads, length_of};
ghost use Rattle.dpl_dual.specs.Duals.{way_at};
ghost use Rattle.dpl_flood.specs.declared.ways.Step.{Step};
ghost use Rattle.dpl_flood.specs.Steps.{IsStepFrom, step_over, step_rows, steps_of};
ghost use Rattle.dpl_flood.specs.declared.nodes.Node.{Node};
ghost use Rattle.dpl_flood.specs.Arenas.{AreNodes, IsLonger, node_at, seat_of, chain_of, IsJoin, start_of, end_of, join_chain, join_length};
ghost use Rattle.dpl_flood.specs.declared.nodes.Join.{Join};

/// The chain to a node leads there from the seat of its member, and is as long as the node says. It stays where nodes are
/// added.
pub fn chains_stay()
    ensures leads { (ways : List Cross) (nodes : List Node) (a : ℕ) → AreNodes ways nodes → a < length nodes →
        Leads ways (seat_of nodes (node_at nodes a).member) (chain_of ways nodes a) (node_at nodes a).face }
    ensures long { (ways : List Cross) (nodes : List Node) (a : ℕ) → AreNodes ways nodes → a < length nodes →
        length_of (chain_of ways nodes a) ≡ (node_at nodes a).far }
    ensures even { (ways : List Cross) (nodes : List Node) (a : ℕ) → All (λ x. x.length % 2 ≡ 0) ways →
        AreNodes ways nodes → a < length nodes → (node_at nodes a).far % 2 ≡ 0 }
    ensures node { (old new : List Node) (a : ℕ) → IsLonger old new → a < length old →
        node_at new a ≡ node_at old a }
    ensures chain { (ways : List Cross) (old new : List Node) (a : ℕ) → AreNodes ways old → IsLonger old new →
        a < length old → chain_of ways new a ≡ chain_of ways old a }
{}

/// A join is a chain from seat to seat, as long as its parts, and stays where nodes are added.
pub fn joins_lead()
    ensures leads { (ways : List Cross) (nodes : List Node) (j : Join) → AreNodes ways nodes → IsJoin ways nodes j →
        Leads ways (seat_of nodes (start_of nodes j)) (join_chain ways nodes j) (seat_of nodes (end_of nodes j)) }
    ensures long { (ways : List Cross) (nodes : List Node) (j : Join) → AreNodes ways nodes → IsJoin ways nodes j →
        length_of (join_chain ways nodes j) ≡ join_length ways nodes j }
    ensures stays { (ways : List Cross) (old new : List Node) (j : Join) → IsLonger old new → IsJoin ways old j →
        IsJoin ways new j }
{}

/// The steps of a face are those over the ways at it that lead to another face, and no others; over each way it has one.
pub fn steps_are()
    ensures each { (ways : List Cross) (f w : ℕ) → w < length ways → IsAt (way_at ways w) f →
        (way_at ways w).f ≢ (way_at ways w).g → Contains (steps_of ways f) (step_over ways f w) }
    ensures only { (ways : List Cross) (f : ℕ) (y : Step) → Contains (steps_of ways f) y → IsStepFrom ways f y }
    ensures row { (ways : List Cross) (faces f : ℕ) → f < faces →
        slice_index_or (step_rows ways faces) f [] ≡ steps_of ways f }
    ensures sizes { (ways : List Cross) (faces : ℕ) → length (step_rows ways faces) ≡ faces }
{}
