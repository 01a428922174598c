// How many primitives a content has.
ghost use Rattle.std.specs.Prelude.{◌≡◌, ◌+◌, ℕ, List};
ghost use Rattle.dpl_calls.specs.Totals.{shown};
ghost use Rattle.dpl_cif.specs.Reading.{primitive_count};
ghost use Rattle.dpl_options.specs.Options.{PlainOptions};
ghost use Rattle.dpl_layer.specs.declared.drawing.Drawing.{Drawing};
ghost use Rattle.dpl_layer.specs.Drawings.{IsDrawingOf};
ghost use Rattle.dpl_edit.specs.Contents.{weight_of, prim_count};

use dpl_cell::Prim;

/// Counts are shown up to this one.
const MOST_SHOWN: u64 = 1_000_000_000_000;

/// A polygon counts as many as it has points.
fn weight(prim: &Prim) -> u64
    ensures { result ≡ weight_of prim.now }
{
    match prim {
        Prim::Box(_) => 1,
        Prim::Poly(points) => points.as_slice().len() as u64,
    }
}

fn capped(sum: u64, more: u64) -> u64
    ensures { result ≡ shown (sum + more) }
{
    sum.saturating_add(more).min(MOST_SHOWN)
}

/// The count of these primitives, as far as it is shown.
pub fn weigh(prims: &[Prim]) -> u64
    ensures { result ≡ shown (prim_count prims.now) }
{
    let mut sum = 0;
    for prim in prims {
        sum = capped(sum, weight(prim));
    }
    sum
}

/// A session counts as many primitives of what a text draws as the reader that drew it. It is a fact about the
/// definitions; nothing runs.
pub fn sessions_count_as_readers()
    ensures { (o : PlainOptions) (text : List ℕ) (d : Drawing) → IsDrawingOf o text d →
        prim_count d.layer.prims ≡ primitive_count o.layer text }
{}
