//! What holds of classes, said without the steps that find them.

ghost use Rattle.std.specs.Prelude.{◌≡◌, ℕ};
ghost use Rattle.dpl_classes.specs.Classes.{AreClasses};

/// Pairs have one list of classes: it leaves a caller no choice.
pub fn classes_are_one(pairs: &[(u32, u32)], one: &[u32], other: &[u32])
    ensures { (n count other_count : ℕ) →
        AreClasses pairs.now n one.now count → AreClasses pairs.now n other.now other_count →
        (one.now ≡ other.now) × (count ≡ other_count) }
{}
