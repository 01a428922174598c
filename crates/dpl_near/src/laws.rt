//! What holds of shapes, said without the steps that find them.

ghost use Rattle.std.specs.Prelude.{◌≡◌, ℕ, ℤ, List, map};
ghost use Rattle.dpl_cell.specs.Places.{Corners, corners_of};
ghost use Rattle.dpl_cell.specs.Images.{moved};
ghost use Rattle.dpl_near.specs.Shapes.{AreShapes};

use dpl_cell::Rect;

/// Rectangles have one list of shapes.
pub fn shapes_are_one(rects: &[Rect])
    ensures { (one other : List ℕ) (count other_count : ℕ) →
        AreShapes (map corners_of rects.now) one count →
        AreShapes (map corners_of rects.now) other other_count →
        (one ≡ other) × (count ≡ other_count) }
{}

/// Rectangles that are moved have the same shapes, with the same numbers.
pub fn shapes_may_be_moved()
    ensures { (right up : ℤ) (rects : List Corners) (label : List ℕ) (count : ℕ) →
        AreShapes rects label count → AreShapes (map (moved right up) rects) label count }
{}
