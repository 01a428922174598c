// What holds of the net of fragments, said without the steps that find it.
ghost use Rattle.std.specs.Prelude.{◌≡◌, ◌↔◌, ◌⊎◌, ℕ, ◌<◌, ◌≤◌, ℤ, ◌<ℤ◌, ◌≤ℤ◌, List, length, map, All};
ghost use Rattle.dpl_cell.specs.Places.{Corners, corners_of};
ghost use Rattle.dpl_cell.specs.Images.{moved, mirrored, transposed};
ghost use Rattle.dpl_near.specs.Shapes.{AreShapes};
ghost use Rattle.dpl_cell.specs.declared.types.Facing.TheVariants.{Side, Corner};
ghost use Rattle.dpl_sign.specs.declared.ports.Port.{Port};
ghost use Rattle.dpl_sign.specs.declared.nets.Net.{Net};
ghost use Rattle.dpl_sign.specs.PortOrder.{StandsBefore};
ghost use Rattle.dpl_sign.specs.Redrawn.{IsMovedPort, IsMirroredPort, IsTransposedPort, IsRedrawn};
ghost use Rattle.dpl_cuts.specs.Fragments.{AreFragments};
ghost use Rattle.dpl_cuts.specs.Images.{AreImages};
ghost use Rattle.dpl_options.specs.Options.{PlainWeights};
ghost use Rattle.dpl_links.specs.declared.linking.Link.{Link};
ghost use Rattle.dpl_links.specs.Links.{IsUpTo};
ghost use Rattle.dpl_links.specs.Ports.{IsPort, IsPortTo, LeavesAt};
ghost use Rattle.dpl_links.specs.Nets.{IsNet, HasMoreEdges, tie_of};
ghost use Rattle.dpl_links.specs.Spacing.{AreWithinShapes, AreAllClashes};
ghost use Rattle.dpl_links.specs.Weighing.{HasWeight};
ghost use Rattle.dpl_links.specs.Moving.{key_shift};

use dpl_cell::Rect;
use dpl_cuts::types::Fragments;

/// All fragments of a piece are of one shape.
pub fn pieces_are_within_shapes(fragments: &Fragments, space: u64, overlap: u64)
    requires { 2 ≤ overlap }
    ensures { (keep tiles : List Corners) (label : List ℕ) (count : ℕ) (weights : PlainWeights)
        (net : Net) →
        AreShapes tiles label count →
        AreFragments keep space overlap tiles label fragments.now →
        IsNet fragments.now weights space net → AreWithinShapes net.pieces fragments.now.shape }
{
    let _lengths = (space, overlap);
}

/// The two fragments of each clash hold cells of different shapes that are too close, each two such cells lie in
/// fragments whose pieces a clash joins, and no two clashes join the same two pieces.
pub fn clashes_are_all(fragments: &Fragments, space: u64, overlap: u64)
    requires { 2 ≤ overlap }
    ensures { (keep tiles : List Corners) (label : List ℕ) (count : ℕ) (weights : PlainWeights)
        (net : Net) →
        AreShapes tiles label count →
        AreFragments keep space overlap tiles label fragments.now →
        IsNet fragments.now weights space net →
        AreAllClashes tiles (map corners_of fragments.now.rects) space net.pieces net.graph.edges }
{
    let _lengths = (space, overlap);
}

/// Fragments have one net at a spacing and with weights.
pub fn nets_are_the_same(fragments: &Fragments)
    ensures { (weights : PlainWeights) (space : ℕ) (one other : Net) →
        IsNet fragments.now weights space one → IsNet fragments.now weights space other →
        one ≡ other }
{
    let _fragments = fragments;
}

/// Fragments whose net has no more edges than a number have no more edges than that.
pub fn edges_are_all(fragments: &Fragments)
    ensures { (weights : PlainWeights) (space n : ℕ) (net : Net) →
        IsNet fragments.now weights space net → length net.graph.edges ≤ n →
        ¬ HasMoreEdges fragments.now space n }
{
    let _fragments = fragments;
}

/// Which edge has which weight.
pub fn edges_have_weights(fragments: &Fragments)
    ensures { (weights : PlainWeights) (space : ℕ) (net : Net) → IsNet fragments.now weights space net →
        All (λ e. HasWeight weights (map corners_of fragments.now.rects) (tie_of e))
        net.graph.edges }
{
    let _fragments = fragments;
}

/// Of the links of two pieces that stands for their clash which is closer; at one gap one that faces, and not at corners;
/// and then that of the smaller fragments, the first of the two before the second.
pub fn links_stand_in_order()
    ensures gap { (l m : Link) → IsUpTo l m → l.gap ≤ m.gap }
    ensures facing { (l m : Link) → IsUpTo l m → l.gap ≡ m.gap → l.corner ≤ m.corner }
    ensures first { (l m : Link) → IsUpTo l m → l.gap ≡ m.gap → l.corner ≡ m.corner → l.a ≤ m.a }
    ensures second { (l m : Link) → IsUpTo l m → l.gap ≡ m.gap → l.corner ≡ m.corner →
        l.a ≡ m.a → l.b ≤ m.b }
{}

/// Fragments that are moved have the same edges, weights and pieces, and the same ports with keys
/// that are moved along their sides.
pub fn nets_may_be_moved(fragments: &Fragments, others: &Fragments)
    ensures { (right up : ℤ) (weights : PlainWeights) (space : ℕ) (net other : Net) →
        AreImages (moved right up) fragments.now others.now →
        IsRedrawn (IsMovedPort (key_shift right up)) net other →
        IsNet fragments.now weights space net → IsNet others.now weights space other }
{
    let _fragments = fragments;
    let _others = others;
}

/// Mirror images of fragments, in the same order, have the same edges, weights and pieces. At their
/// ports east and west are exchanged and keys are negated. Where columns and rows are exchanged,
/// south and west are, and east and north.
pub fn nets_may_be_mirrored(fragments: &Fragments, others: &Fragments)
    ensures mirrored { (weights : PlainWeights) (space : ℕ) (net other : Net) →
        AreImages mirrored fragments.now others.now → IsRedrawn IsMirroredPort net other →
        IsNet fragments.now weights space net → IsNet others.now weights space other }
    ensures transposed { (weights : PlainWeights) (space : ℕ) (net other : Net) →
        AreImages transposed fragments.now others.now → IsRedrawn IsTransposedPort net other →
        IsNet fragments.now weights space net → IsNet others.now weights space other }
{
    let _fragments = fragments;
    let _others = others;
}

/// At which port a link leaves a rectangle, said by what the two share and by which stands before the other.
pub fn ports_are_by_facing(a: &Rect, b: &Rect)
    ensures { (p : Port) → IsPortTo (corners_of a.now) (corners_of b.now) p
        ↔ LeavesAt (corners_of a.now) (corners_of b.now) p }
{
    let _first = a;
    let _second = b;
}

/// Links stand around a fragment as one meets them when turning counterclockwise from its
/// south-west corner: at south from the left to the right, at east upwards, at north from the right
/// to the left and at west downwards. At the corners in the south-west and the north-east the
/// steeper link comes later, at those in the south-east and the north-west earlier.
pub fn links_turn_counterclockwise()
    ensures rising { (p q : Port) (e f port : ℕ) (from to from' to' : ℤ) →
        (port ≡ 1) ⊎ (port ≡ 3) → IsPort (Side port from to) p → IsPort (Side port from' to') q →
        from ≤ℤ from' → to <ℤ to' → StandsBefore p e q f }
    ensures falling { (p q : Port) (e f port : ℕ) (from to from' to' : ℤ) →
        (port ≡ 5) ⊎ (port ≡ 7) → IsPort (Side port from to) p → IsPort (Side port from' to') q →
        from' ≤ℤ from → to' <ℤ to → StandsBefore p e q f }
    ensures steeper { (p q : Port) (e f port dx dy dx' dy' : ℕ) → (port ≡ 0) ⊎ (port ≡ 4) →
        IsPort (Corner port dx dy) p → IsPort (Corner port dx' dy') q →
        dx' < dx → dy < dy' → StandsBefore p e q f }
    ensures flatter { (p q : Port) (e f port dx dy dx' dy' : ℕ) → (port ≡ 2) ⊎ (port ≡ 6) →
        IsPort (Corner port dx dy) p → IsPort (Corner port dx' dy') q →
        dx < dx' → dy' < dy → StandsBefore p e q f }
{}
