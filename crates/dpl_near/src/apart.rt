// Whether rectangles share no cell.
ghost use Rattle.std.specs.Prelude.{◌↔◌, AllPairs, IsTrue, map};
ghost use Rattle.dpl_cell.specs.Places.{corners_of};
ghost use Rattle.dpl_cell.specs.Cells.{AreApart};

use dpl_cell::{Rect, meet};

/// Whether no two of the rectangles share a cell.
pub fn are_apart(rects: &[Rect]) -> bool
    ensures { IsTrue result ↔ AllPairs AreApart (map corners_of rects.now) }
{
    'seconds: for j in 0..rects.len() {
        'firsts: for i in 0..j {
            if !is_apart(&rects[i], &rects[j]) {
                return false;
            }
        }
    }
    true
}

fn is_apart(a: &Rect, b: &Rect) -> bool
    ensures { IsTrue result ↔ AreApart (corners_of a.now) (corners_of b.now) }
{
    let columns = meet(a.x1, a.x2, b.x1, b.x2);
    let rows = meet(a.y1, a.y2, b.y1, b.y2);
    !(columns & rows)
}
