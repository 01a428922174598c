// What holds of turns, mirrors, placements and the depth of calls, said without the steps that carry them out.
ghost use Rattle.std.specs.Prelude.{◌≡◌, ◌⊎◌, ℕ, ◌+◌, ℤ, pos, neg_ℤ, ◌++◌, List, length, None, unsigned_abs};
ghost use Rattle.dpl_groups.specs.Groups.{AreGroups};
ghost use Rattle.dpl_rules.specs.declared.command.Transformation.TheVariants.{MirrorX, MirrorY};
ghost use Rattle.dpl_calls.specs.declared.figure.Corner.{Corner};
ghost use Rattle.dpl_calls.specs.declared.figure.Figure.{Figure};
ghost use Rattle.dpl_calls.specs.Counted.{HasNoLoop};
ghost use Rattle.dpl_calls.specs.Parts.{corner, turned, transformed, transformed_by};
ghost use Rattle.dpl_calls.specs.Places.{graph_of};
ghost use Rattle.dpl_calls.specs.Rotations.{quarter_left, quarter_right};
ghost use Rattle.dpl_calls.specs.Table.{bodies_of};
ghost use Rattle.dpl_calls.specs.Unfolding.{placed, figures_of};

use crate::table::Table;
use dpl_groups::Groups;
use dpl_rules::command::{Scale, Spot, Transformation};

/// A turn takes the point as far out on the x axis to the point of its direction, and keeps the sense of
/// rotation: a quarter turn to the left before it is one behind it.
pub fn turns_follow_their_direction(to: &Spot)
    requires { (to.now.x ≡ pos 0) ⊎ (to.now.y ≡ pos 0) }
    ensures direction { turned to.now (corner (pos (unsigned_abs to.now.x
        + unsigned_abs to.now.y)) (pos 0)) ≡ corner to.now.x to.now.y }
    ensures sense { (c : Corner) →
        turned to.now (quarter_left c) ≡ quarter_left (turned to.now c) }
{}

/// A turn and the one to the direction mirrored in the x axis undo each other.
pub fn opposite_turns_undo(to: &Spot, back: &Spot)
    requires straight { (to.now.x ≡ pos 0) ⊎ (to.now.y ≡ pos 0) }
    requires x { back.now.x ≡ to.now.x }
    requires y { back.now.y ≡ neg_ℤ to.now.y }
    ensures { (c : Corner) → turned back.now (turned to.now c) ≡ c }
{}

/// Two mirrors undo each other, a mirror keeps the points on its axis, and turns the sense of rotation round.
pub fn mirrors_undo(scale: Scale)
    ensures x_twice { (c : Corner) →
        transformed scale MirrorX (transformed scale MirrorX c) ≡ c }
    ensures y_twice { (c : Corner) →
        transformed scale MirrorY (transformed scale MirrorY c) ≡ c }
    ensures x_axis { (y : ℤ) → transformed scale MirrorX (corner (pos 0) y) ≡ corner (pos 0) y }
    ensures y_axis { (x : ℤ) → transformed scale MirrorY (corner x (pos 0)) ≡ corner x (pos 0) }
    ensures x_sense { (c : Corner) → transformed scale MirrorX (quarter_left c)
        ≡ quarter_right (transformed scale MirrorX c) }
    ensures y_sense { (c : Corner) → transformed scale MirrorY (quarter_left c)
        ≡ quarter_right (transformed scale MirrorY c) }
{}

/// A placement of a placement is the placement of both, of points and of figures.
pub fn placements_are_joined(scale: Scale, inner: &[Transformation], outer: &[Transformation])
    ensures points { (c : Corner) → transformed_by scale (inner.now ++ outer.now) c
        ≡ transformed_by scale outer.now (transformed_by scale inner.now c) }
    ensures figures { (figure : Figure) → placed (transformed_by scale (inner.now ++ outer.now)) figure
        ≡ placed (transformed_by scale outer.now) (placed (transformed_by scale inner.now) figure) }
{}

/// Where no call leads back, calls carried out deeper than there are definitions give the same figures.
pub fn depth_may_grow(table: &Table, groups: &Groups)
    requires groups { AreGroups (graph_of table.now) groups.now.labels groups.now.heads }
    requires loops { HasNoLoop (graph_of table.now) groups.now.labels }
    ensures { (deeper : ℕ) → figures_of (length table.now.definitions.entries + 1 + deeper)
        (bodies_of table.now) (λ c. c) (bodies_of table.now None)
        ≡ figures_of (length table.now.definitions.entries + 1) (bodies_of table.now) (λ c. c)
        (bodies_of table.now None) }
{}
