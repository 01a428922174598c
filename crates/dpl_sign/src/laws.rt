// What holds of ports, drawings, the excess and packings, said without the steps that find them.
ghost use Rattle.std.specs.Prelude.{◌≡◌, ◌≢◌, ◌==◌, ℕ, ◌+◌, ◌*◌, ◌/◌, ◌%◌, ◌<◌, ◌≤◌, ◌⊎◌, ◌↔◌, ℤ, Bool};
ghost use Rattle.std.specs.Prelude.{true, false, [], length, sum_by, count_by};
ghost use Rattle.dpl_sign.specs.declared.ports.Port.{Port as PlainPort};
ghost use Rattle.dpl_sign.specs.Drawings.{is_in, face_count, next_around, next_in_face, face_of, twin_of, dart_count};
ghost use Rattle.dpl_sign.specs.Rotations.{Leaves, ComesNext};
ghost use Rattle.dpl_sign.specs.Components.{component_count, component_of, AreJoined};
ghost use Rattle.dpl_sign.specs.Excess.{edge_count, excess, all_edges, with_edge, kept_edges, is_aside, aside_edges, raises_excess, AreEndsJoined, LiesInFace};
ghost use Rattle.dpl_sign.specs.Parity.{is_odd_face};
ghost use Rattle.dpl_cycle.specs.Sums.{count_on};
ghost use Rattle.dpl_sign.specs.PortOrder.{StandsBefore, port_cmp};
ghost use Rattle.dpl_sign.specs.Redrawn.{IsMovedPort, IsMirroredPort, IsTransposedPort, IsRedrawn, HasNoTies, AreDrawnAlike, AreOpposite};
ghost use Rattle.dpl_sign.specs.Colourings.{cost_of, IsColouring};
ghost use Rattle.dpl_sign.specs.Packings.{IsPacking, bound_of, load, passages};

use crate::graphs::Signed;
use crate::nets::Net;
use crate::ports::Port;
use crate::walks::Cycle;

/// The edges that leave one node stand in a strict total order by their ports.
pub fn ports_are_in_order(p: &Port, e: u32, q: &Port, f: u32, r: &Port, g: u32)
    ensures irreflexive { ¬ StandsBefore p.now e p.now e }
    ensures transitive { StandsBefore p.now e q.now f → StandsBefore q.now f r.now g →
        StandsBefore p.now e r.now g }
    ensures total { e ≢ f → StandsBefore p.now e q.now f ⊎ StandsBefore q.now f p.now e }
{}

/// A packing bounds the cost of every colouring: each colouring breaks each odd walk.
pub fn packing_bounds(graph: &Signed, cycles: &[Cycle], colours: &[bool])
    requires packing { IsPacking graph.now cycles.now }
    requires colouring { IsColouring graph.now colours.now }
    ensures { bound_of cycles.now ≤ 2 * cost_of graph.now colours.now }
{}

/// A walk loads an edge with its half weight as often as it passes the edge.
pub fn loads_count_passages(cycles: &[Cycle])
    ensures { (e : ℕ) → load (passages cycles.now) e ≡
        sum_by (λ c. c.half * count_by (λ f. f == e) c.walk.edges) cycles.now }
{}

/// Around a node each dart of a set leads to the one whose port comes next, and the last to the first:
/// a turn passes each of them once, counterclockwise.
pub fn rotation_follows_ports(net: &Net, set: &[bool])
    ensures { (v d : ℕ) → Leaves net.now (is_in set.now) v d →
        ComesNext net.now (is_in set.now) v d (next_around net.now (is_in set.now) d) }
{}

/// Two nodes are of one component exactly where edges of the set lead from one to the other.
pub fn components_are_joined(graph: &Signed, set: &[bool], u: u32, v: u32)
    ensures { component_of graph.now (is_in set.now) u ≡ component_of graph.now (is_in set.now) v ↔
        AreJoined graph.now (is_in set.now) u v }
{}

/// The excess is even and never negative: it is what Euler's formula lacks.
pub fn excess_is_even(net: &Net, set: &[bool])
    ensures even { excess net.now (is_in set.now) % 2 ≡ 0 }
    ensures euler { net.now.graph.nodes + face_count net.now (is_in set.now)
        + excess net.now (is_in set.now) ≡
        2 * component_count net.now.graph (is_in set.now) + edge_count net.now (is_in set.now) }
{}

/// An edge more never lowers the excess. It stays where the edge joins two components, also where
/// one of its ends or both were bare, and where it splits a face. It rises by 2 where the edge
/// leads from one face of a component to another.
pub fn edges_never_lower_the_excess(net: &Net, set: &[bool], edge: u32)
    requires edge { edge < length net.now.graph.edges }
    requires new { is_in set.now edge ≡ false }
    ensures joins { ¬ AreEndsJoined net.now (is_in set.now) edge →
        excess net.now (with_edge (is_in set.now) edge) ≡ excess net.now (is_in set.now) }
    ensures splits { AreEndsJoined net.now (is_in set.now) edge →
        LiesInFace net.now (is_in set.now) edge →
        excess net.now (with_edge (is_in set.now) edge) ≡ excess net.now (is_in set.now) }
    ensures crosses { AreEndsJoined net.now (is_in set.now) edge →
        (¬ LiesInFace net.now (is_in set.now) edge) →
        excess net.now (with_edge (is_in set.now) edge) ≡ excess net.now (is_in set.now) + 2 }
{}

/// The next edge is set aside exactly where it leads from one face of a component to another.
pub fn edges_aside_cross(net: &Net, kept: &[bool])
    requires { length kept.now < length net.now.graph.edges }
    ensures joined { raises_excess net.now kept.now ≡ true →
        AreEndsJoined net.now (is_in kept.now) (length kept.now) }
    ensures faces { raises_excess net.now kept.now ≡ true →
        ¬ LiesInFace net.now (is_in kept.now) (length kept.now) }
    ensures only { AreEndsJoined net.now (is_in kept.now) (length kept.now) →
        (¬ LiesInFace net.now (is_in kept.now) (length kept.now)) →
        raises_excess net.now kept.now ≡ true }
{}

/// The kept edges are drawn plane.
pub fn kept_edges_are_plane(net: &Net)
    ensures { excess net.now (is_in (kept_edges net.now)) ≡ 0 }
{}

/// The excess of a set never falls when edges are added.
pub fn excess_never_falls(net: &Net, set: &[bool], more: &[bool])
    requires { (e : ℕ) → e < length net.now.graph.edges → is_in set.now e ≡ true →
        is_in more.now e ≡ true }
    ensures { excess net.now (is_in set.now) ≤ excess net.now (is_in more.now) }
{}

/// Nothing is set aside exactly where the whole drawing is plane.
pub fn nothing_is_aside_where_plane(net: &Net)
    ensures { aside_edges net.now ≡ [] ↔ excess net.now all_edges ≡ 0 }
{}

/// An edge is set aside exactly where the kept edges would have a higher excess if it were put
/// back.
pub fn edges_aside_raise_the_excess(net: &Net, edge: u32)
    requires { edge < length net.now.graph.edges }
    ensures { is_aside net.now edge ≡ true ↔ excess net.now (is_in (kept_edges net.now)) <
        excess net.now (with_edge (is_in (kept_edges net.now)) edge) }
{}

/// Which edges are set aside depends on the excess alone.
pub fn aside_is_by_the_excess(one: &Net, other: &Net)
    requires edges { length other.now.graph.edges ≡ length one.now.graph.edges }
    requires excess { (set : ℕ → Bool) → excess other.now set ≡ excess one.now set }
    ensures kept { kept_edges other.now ≡ kept_edges one.now }
    ensures aside { aside_edges other.now ≡ aside_edges one.now }
{}

/// Ports whose keys are moved, on each side by one number, stand in the same order.
pub fn ports_may_be_moved(one: &Net, other: &Net)
    ensures order { (shift : ℕ → ℤ) (p q p' q' : PlainPort) (e f : ℕ) → IsMovedPort shift p p' →
        IsMovedPort shift q q' → port_cmp p' e q' f ≡ port_cmp p e q f }
    ensures net { (shift : ℕ → ℤ) → IsRedrawn (IsMovedPort shift) one.now other.now →
        AreDrawnAlike one.now other.now }
{}

/// Mirror images of ports stand around a node in the opposite order, unless two edges leave at one
/// place: of these the smaller number stands first in either net.
pub fn ports_may_be_mirrored(one: &Net, other: &Net)
    requires { HasNoTies one.now }
    ensures mirrored { IsRedrawn IsMirroredPort one.now other.now → AreOpposite one.now other.now }
    ensures transposed { IsRedrawn IsTransposedPort one.now other.now →
        AreOpposite one.now other.now }
{}

/// Nets of one graph whose darts stand in one order around each node have the same next darts,
/// faces and excess, and the same edges are set aside.
pub fn drawings_are_alike(one: &Net, other: &Net)
    requires { AreDrawnAlike one.now other.now }
    ensures next { (set : ℕ → Bool) (d : ℕ) → d < dart_count one.now →
        next_around other.now set d ≡ next_around one.now set d }
    ensures faces { (set : ℕ → Bool) (d : ℕ) → face_of other.now set d ≡ face_of one.now set d }
    ensures excess { (set : ℕ → Bool) → excess other.now set ≡ excess one.now set }
    ensures kept { kept_edges other.now ≡ kept_edges one.now }
    ensures aside { aside_edges other.now ≡ aside_edges one.now }
{}

/// Nets of one graph whose darts stand in opposite orders have the same faces, walked backwards:
/// each dart's twin is on the face that its own face becomes, and one of these is odd where the
/// other is, so that there are as many odd faces. They have the same excess, and the same edges are
/// kept and set aside.
pub fn drawings_are_opposite(one: &Net, other: &Net)
    requires { AreOpposite one.now other.now }
    ensures walks { (set : ℕ → Bool) (d : ℕ) → d < dart_count one.now → set (d / 2) ≡ true →
        next_in_face other.now set (twin_of (next_in_face one.now set d)) ≡ twin_of d }
    ensures faces { (set : ℕ → Bool) (d c : ℕ) → d < dart_count one.now → c < dart_count one.now →
        (face_of one.now set d ≡ face_of one.now set c ↔
        face_of other.now set (twin_of d) ≡ face_of other.now set (twin_of c)) }
    ensures odd { (set : ℕ → Bool) (d : ℕ) → d < dart_count one.now →
        is_odd_face other.now set (face_of other.now set (twin_of d)) ≡
        is_odd_face one.now set (face_of one.now set d) }
    ensures count { (set : ℕ → Bool) → count_on (is_odd_face other.now set) (dart_count other.now) ≡
        count_on (is_odd_face one.now set) (dart_count one.now) }
    ensures excess { (set : ℕ → Bool) → excess other.now set ≡ excess one.now set }
    ensures kept { kept_edges other.now ≡ kept_edges one.now }
    ensures aside { aside_edges other.now ≡ aside_edges one.now }
{}
