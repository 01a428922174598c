//! What stays of the masks.
ghost use Rattle.std.specs.Prelude.{◌≡◌, ◌↔◌, ◌<◌, ℕ};
ghost use Rattle.dpl_options.specs.Options.{PlainOptions};
ghost use Rattle.dpl_sign.specs.Colourings.{colour_of};
ghost use Rattle.dpl_stay.specs.Laws.{LookTheSame};
ghost use Rattle.dpl_stay.specs.Same.{corners_at};
ghost use Rattle.dpl_edit.specs.Optima.{Optimum, IsSomeOptimum, KeepMasks};

/// A fragment keeps its mask where nothing of its component was changed: there are the same
/// rectangles, and between these the same edges. Where nothing at all was changed, each fragment does.
pub fn masks_are_kept()
    ensures components { (before after : Optimum) → KeepMasks before after ↔ ((v w : ℕ) →
        v < after.net.graph.nodes → w < before.net.graph.nodes →
        LookTheSame after.fragments.rects before.fragments.rects after.net before.net v w →
        corners_at after.fragments.rects v ≡ corners_at before.fragments.rects w →
        colour_of after.colours v ≡ colour_of before.colours w) }
    ensures unchanged { (o : PlainOptions) (before after : Optimum) → IsSomeOptimum o before →
        after.fragments ≡ before.fragments → after.net ≡ before.net →
        KeepMasks before after ↔ ((v : ℕ) → v < before.net.graph.nodes →
        colour_of after.colours v ≡ colour_of before.colours v) }
{}
