//! What a verdict means, said without the conditions that are tried one after another.

ghost use Rattle.std.specs.Prelude.{◌≡◌, ◌↔◌, ℕ, List};
ghost use Rattle.dpl_cuts.specs.declared.types.Fragments.{Fragments};
ghost use Rattle.dpl_sign.specs.declared.nets.Net.{Net};
ghost use Rattle.dpl_layer.specs.Drawings.{OnLayer};
ghost use Rattle.dpl_layer.specs.Layers.{IsLayer};
ghost use Rattle.dpl_report.specs.Plain.{PlainReport};
ghost use Rattle.dpl_good.specs.Facts.{AreNineFacts};
ghost use Rattle.dpl_check.specs.declared.verdicts.Verdict.TheVariants.{Yes};
ghost use Rattle.dpl_check.specs.Checked.{IsVerdictOf};

use dpl_options::Options;

/// The verdict is Yes with a cost and a bound exactly where the text is that of a report with this cost
/// and bound, of which the nine facts hold over the layer.
pub fn yes_is_by_the_facts(options: &Options)
    ensures { (text report : List ℕ) (cost bound : ℕ) →
        IsVerdictOf options.now text report (Yes cost bound)
        ↔ OnLayer options.now text (λ cells kept. (f : Fragments) × (net : Net) ×
        (r : PlainReport) × IsLayer options.now cells kept f net ×
        AreNineFacts options.now f net report r × (cost ≡ r.head.cost) ×
        (bound ≡ r.head.bound)) }
{
    options.in_range();
}
