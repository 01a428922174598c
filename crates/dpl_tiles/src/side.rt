// A side of a polygon as a value.
ghost use Rattle.std.specs.Prelude.{ℤ, pos, neg_ℤ, ◌≤ℤ◌};
ghost use Rattle.dpl_limits.specs.Limits.{most_coordinate};

/// A side of a polygon: the column where it begins, and the rows of its ends.
#[derive(Clone, Copy, Debug)]
pub struct Side {
    pub column: i64,
    pub low: i64,
    pub high: i64,
    pub ghost left: { neg_ℤ (pos most_coordinate) ≤ℤ column },
    pub ghost right: { column ≤ℤ pos most_coordinate },
}
