// What lies in a stretch of places, and which stretches overlap.
ghost use Rattle.std.specs.Prelude.{◌≡◌};
ghost use Rattle.dpl_cell.specs.Layers.{is_within};
ghost use Rattle.dpl_cell.specs.Gaps.{overlap};

/// Whether a place lies from one place to another, which is left out.
pub fn is_between(from: i64, to: i64, p: i64) -> bool
    ensures { result ≡ is_within from to p }
{
    from <= p && p < to
}

/// Whether two stretches have something in common.
pub fn meet(a1: i64, a2: i64, b1: i64, b2: i64) -> bool
    ensures { result ≡ overlap a1 a2 b1 b2 }
{
    a1.max(b1) < a2.min(b2)
}
