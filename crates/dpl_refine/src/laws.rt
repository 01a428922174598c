// What a turned piece costs, and which colours are refined.
ghost use Rattle.std.specs.Prelude.{◌≡◌, ◌+◌, ◌<◌, ◌≤◌, ℕ, Bool, List};
ghost use Rattle.dpl_sign.specs.Colourings.{IsColouring, cost_of};
ghost use Rattle.dpl_refine.specs.Pieces.{ArePieces};
ghost use Rattle.dpl_refine.specs.Refined.{IsRefined, IsTurnedAt};
ghost use Rattle.dpl_refine.specs.Gains.{piece_at, won_of, lost_of};

use dpl_sign::Signed;

/// What a colouring costs after the piece of a node is turned over, and what that wins, are what it cost before and what
/// that loses. A fact about the definitions; nothing runs.
pub fn turns_cost(graph: &Signed, piece: &[u32], node: u32, old: &[bool], new: &[bool])
    requires node { node < graph.now.nodes }
    requires turned { IsTurnedAt graph.now node old.now new.now }
    ensures { (count : ℕ) → ArePieces graph.now piece.now count →
        cost_of graph.now new.now + won_of graph.now.edges piece.now old.now (piece_at piece.now node) ≡
        cost_of graph.now old.now + lost_of graph.now.edges piece.now old.now (piece_at piece.now node) }
{}

/// Colours of which a piece is turned over still agree at bonds.
pub fn turned_are_colourings(graph: &Signed, node: u32, old: &[bool], new: &[bool])
    requires colouring { IsColouring graph.now old.now }
    requires turned { IsTurnedAt graph.now node old.now new.now }
    ensures { IsColouring graph.now new.now }
{}

/// Colours that cost least of all are refined as they are.
pub fn least_are_refined(graph: &Signed, colours: &[bool])
    requires colouring { IsColouring graph.now colours.now }
    requires least { (others : List Bool) → IsColouring graph.now others →
        cost_of graph.now colours.now ≤ cost_of graph.now others }
    ensures { IsRefined graph.now colours.now colours.now }
{}
