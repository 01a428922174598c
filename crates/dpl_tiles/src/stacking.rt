// Runs and stacks found by their columns.
ghost use Rattle.std.specs.Prelude.{AllPairs, Any, MatchOption};
ghost use Rattle.dpl_tiles.specs.Bands.{HasColumns};
ghost use Rattle.dpl_stacks.specs.Stacks.{IsLeftOf};
ghost use Rattle.dpl_tiles.specs.Stacks.{IsPlaceOf};

use dpl_cell::Rect;

/// Which rectangle of the list has these columns.
pub fn find(rects: &[Rect], r: &Rect) -> Option<usize>
    requires { AllPairs IsLeftOf rects.now }
    ensures { MatchOption result (¬ Any (HasColumns r.now.x1 r.now.x2) rects.now)
        (IsPlaceOf rects.now r.now) }
{
    match rects.binary_search_by_key(&r.x1, |other| other.x1) {
        Err(_) => None,
        Ok(k) if rects[k].x2 == r.x2 => Some(k),
        Ok(_) => None,
    }
}
