//! When components are the same.
ghost use Rattle.std.specs.Prelude.{◌↔◌, ℕ, List};
ghost use Rattle.dpl_cell.specs.declared.rect.Rect.{Rect};
ghost use Rattle.dpl_sign.specs.declared.nets.Net.{Net};
ghost use Rattle.dpl_stay.specs.Laws.{LookTheSame};
ghost use Rattle.dpl_stay.specs.Same.{AreSame};

/// Components are the same exactly where they have the same rectangles, and between these the same
/// edges. No number of a node or of an edge counts.
pub fn numbers_do_not_count()
    ensures { (f g : List Rect) (n m : Net) (v w : ℕ) →
        AreSame f g n m v w ↔ LookTheSame f g n m v w }
{}
