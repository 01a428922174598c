// What holds of the cycles of a permutation and of sums around them.
ghost use Rattle.std.specs.Prelude.{◌≡◌, ◌≢◌, ℕ, ◌+◌, ◌<◌, Bool, false};
ghost use Rattle.dpl_cycle.specs.Cycles.{Permutes, SplitsOrMerges, cycles};
ghost use Rattle.dpl_cycle.specs.Sums.{IsEvenAround, HasLabels};
ghost use Rattle.dpl_cycle.specs.Among.{cycles_among, members, others_count};

/// Exchanging where two numbers lead splits their cycle, or joins their two cycles.
pub fn exchange_splits_or_merges(n: u64, i: u64, j: u64)
    requires first { i < n }
    requires second { j < n }
    requires apart { i ≢ j }
    ensures { (next back : ℕ → ℕ) → Permutes n next back → SplitsOrMerges n next i j }
{}

/// Weights that are even around each cycle are the differences of labels along the cycles.
pub fn even_sums_have_labels(n: u64)
    ensures { (next back weight : ℕ → ℕ) → Permutes n next back → IsEvenAround next weight n →
        HasLabels next weight n }
{}

/// Where each number outside a set leads to itself, the other cycles are those through the set.
pub fn members_and_others(n: u64)
    ensures { (next back : ℕ → ℕ) (set : ℕ → Bool) → Permutes n next back →
        ((x : ℕ) → x < n → set x ≡ false → next x ≡ x) →
        cycles next n ≡ cycles_among next (members set n) + others_count set n }
{}
