//! What the sets that hold a member have.

ghost use Rattle.std.specs.Prelude.{◌≡◌, ◌<◌, ◌≤◌, ◌^◌, ℕ, length};
ghost use Rattle.dpl_laminar.specs.declared.TheConstants.{MOST_MEMBERS};
ghost use Rattle.dpl_laminar.specs.Storing.{sets_of};
ghost use Rattle.dpl_pack.specs.Points.{total_at};
ghost use Rattle.dpl_flood.specs.Foldings.{AreInner, AreTotals};

use dpl_laminar::Family;

/// Turns what the sets strictly inside its top have for each member into what all sets have.
pub(crate) fn add_tops(family: &Family, sums: &mut [u64])
    requires few { (sets_of family.now).size ≤ MOST_MEMBERS }
    requires members { length sums.old ≡ (sets_of family.now).size }
    requires inner { AreInner (sets_of family.now) sums.old }
    requires small { (t : ℕ) → t < (sets_of family.now).size → total_at (sets_of family.now) t ≤ 2 ^ 50 }
    ensures { AreTotals (sets_of family.now) sums.new }
{
    for i in 0..sums.len() {
        sums[i] += family.value(family.tops(i as u32));
    }
}

/// Turns what all sets have for each member into what those strictly inside its top have.
pub(crate) fn drop_tops(family: &Family, sums: &mut [u64])
    requires few { (sets_of family.now).size ≤ MOST_MEMBERS }
    requires members { length sums.old ≡ (sets_of family.now).size }
    requires totals { AreTotals (sets_of family.now) sums.old }
    ensures { AreInner (sets_of family.now) sums.new }
{
    for i in 0..sums.len() {
        sums[i] -= family.value(family.tops(i as u32));
    }
}
