//! What holds of cells, gaps, tiles and facing rectangles, said without the steps that find them.

ghost use Rattle.std.specs.Prelude.{◌≡◌, ◌↔◌, ◌<◌, ◌*◌, ℕ, ℤ, pos, neg_ℤ, ◌+ℤ◌, ◌-ℤ◌, Bool, List, map};
ghost use Rattle.std.specs.Prelude.{Contains};
ghost use Rattle.dpl_cell.specs.Places.{Corners, corners_of};
ghost use Rattle.dpl_cell.specs.Cells.{IsIn};
ghost use Rattle.dpl_cell.specs.Gaps.{AreClose, IsGap2};
ghost use Rattle.dpl_cell.specs.Edges.{SharesEdge};
ghost use Rattle.dpl_cell.specs.Shapes.{AreOneShape};
ghost use Rattle.dpl_cell.specs.Tiles.{AreTiles};
ghost use Rattle.dpl_cell.specs.Facing.{FacesLevel, FacesUpright, IsOffCorner};
ghost use Rattle.dpl_cell.specs.Images.{moved_cells, moved, mirrored_cells, mirrored, transposed};
ghost use Rattle.dpl_cell.specs.Images.{mirrored_port, transposed_port};

use crate::Rect;

/// Rectangles are close exactly where their squared gap is less than the square of the reach: not where it is equal.
pub fn close_is_by_the_gap(a: &Rect, b: &Rect)
    ensures { (gap reach : ℕ) → IsGap2 (IsIn (corners_of a.now)) (IsIn (corners_of b.now)) gap →
        AreClose (IsIn (corners_of a.now)) (IsIn (corners_of b.now)) reach ↔ (gap < reach * reach) }
{}

/// Cells have one list of tiles.
pub fn tiles_are_one()
    ensures { (cells : ℤ → ℤ → Bool) (one other : List Corners) →
        AreTiles cells one → AreTiles cells other → one ≡ other }
{}

/// Cells that are moved have the same tiles and the same shapes, moved.
pub fn cells_may_be_moved()
    ensures tiles { (right up : ℤ) (cells : ℤ → ℤ → Bool) (tiles : List Corners) →
        AreTiles cells tiles → AreTiles (moved_cells right up cells) (map (moved right up) tiles) }
    ensures shapes { (right up : ℤ) (cells : ℤ → ℤ → Bool) (x y x' y' : ℤ) →
        AreOneShape cells x y x' y' → AreOneShape (moved_cells right up cells) (x +ℤ right)
        (y +ℤ up) (x' +ℤ right) (y' +ℤ up) }
{}

/// The mirror image of cells has the mirror images of their tiles, and its shapes are those of the
/// cells.
pub fn cells_may_be_mirrored()
    ensures tiles { (cells : ℤ → ℤ → Bool) (tiles others : List Corners) → AreTiles cells tiles →
        AreTiles (mirrored_cells cells) others →
        (r : Corners) → Contains tiles r ↔ Contains others (mirrored r) }
    ensures shapes { (cells : ℤ → ℤ → Bool) (x y x' y' : ℤ) → AreOneShape cells x y x' y' →
        AreOneShape (mirrored_cells cells) (neg_ℤ x -ℤ pos 1) y (neg_ℤ x' -ℤ pos 1) y' }
{}

/// Rectangles that are moved have the same gap, are as close, share edges where they did, and face
/// each other at the same sides, over a stretch that is moved, and at the same corners.
pub fn rectangles_may_be_moved()
    ensures gap { (right up : ℤ) (a b : Corners) (n : ℕ) → IsGap2 (IsIn a) (IsIn b) n →
        IsGap2 (IsIn (moved right up a)) (IsIn (moved right up b)) n }
    ensures close { (right up : ℤ) (a b : Corners) (reach : ℕ) → AreClose (IsIn a) (IsIn b) reach →
        AreClose (IsIn (moved right up a)) (IsIn (moved right up b)) reach }
    ensures edge { (right up : ℤ) (a b : Corners) → SharesEdge (IsIn a) (IsIn b) →
        SharesEdge (IsIn (moved right up a)) (IsIn (moved right up b)) }
    ensures level { (right up : ℤ) (a b : Corners) (port : ℕ) (from to : ℤ) →
        FacesLevel a b port from to → FacesLevel (moved right up a) (moved right up b) port
        (from +ℤ right) (to +ℤ right) }
    ensures upright { (right up : ℤ) (a b : Corners) (port : ℕ) (from to : ℤ) →
        FacesUpright a b port from to → FacesUpright (moved right up a) (moved right up b) port
        (from +ℤ up) (to +ℤ up) }
    ensures corner { (right up : ℤ) (a b : Corners) (port dx dy : ℕ) →
        IsOffCorner a b port dx dy →
        IsOffCorner (moved right up a) (moved right up b) port dx dy }
{}

/// Mirror images of rectangles have the same gap, are as close and share edges where the rectangles
/// do. They face each other over the mirrored stretch, with east and west exchanged.
pub fn rectangles_may_be_mirrored()
    ensures gap { (a b : Corners) (n : ℕ) → IsGap2 (IsIn a) (IsIn b) n →
        IsGap2 (IsIn (mirrored a)) (IsIn (mirrored b)) n }
    ensures close { (a b : Corners) (reach : ℕ) → AreClose (IsIn a) (IsIn b) reach →
        AreClose (IsIn (mirrored a)) (IsIn (mirrored b)) reach }
    ensures edge { (a b : Corners) → SharesEdge (IsIn a) (IsIn b) →
        SharesEdge (IsIn (mirrored a)) (IsIn (mirrored b)) }
    ensures level { (a b : Corners) (port : ℕ) (from to : ℤ) → FacesLevel a b port from to →
        FacesLevel (mirrored a) (mirrored b) (mirrored_port port) (neg_ℤ to) (neg_ℤ from) }
    ensures upright { (a b : Corners) (port : ℕ) (from to : ℤ) → FacesUpright a b port from to →
        FacesUpright (mirrored a) (mirrored b) (mirrored_port port) from to }
    ensures corner { (a b : Corners) (port dx dy : ℕ) → IsOffCorner a b port dx dy →
        IsOffCorner (mirrored a) (mirrored b) (mirrored_port port) dx dy }
{}

/// The same of rectangles whose columns and rows are exchanged: what faced level faces upright, and
/// the columns and the rows between two corners are exchanged.
pub fn rectangles_may_be_transposed()
    ensures gap { (a b : Corners) (n : ℕ) → IsGap2 (IsIn a) (IsIn b) n →
        IsGap2 (IsIn (transposed a)) (IsIn (transposed b)) n }
    ensures close { (a b : Corners) (reach : ℕ) → AreClose (IsIn a) (IsIn b) reach →
        AreClose (IsIn (transposed a)) (IsIn (transposed b)) reach }
    ensures edge { (a b : Corners) → SharesEdge (IsIn a) (IsIn b) →
        SharesEdge (IsIn (transposed a)) (IsIn (transposed b)) }
    ensures level { (a b : Corners) (port : ℕ) (from to : ℤ) → FacesLevel a b port from to →
        FacesUpright (transposed a) (transposed b) (transposed_port port) from to }
    ensures upright { (a b : Corners) (port : ℕ) (from to : ℤ) → FacesUpright a b port from to →
        FacesLevel (transposed a) (transposed b) (transposed_port port) from to }
    ensures corner { (a b : Corners) (port dx dy : ℕ) → IsOffCorner a b port dx dy →
        IsOffCorner (transposed a) (transposed b) (transposed_port port) dy dx }
{}
