// An end of a side as a value.
ghost use Rattle.std.specs.Prelude.{ℤ, pos, neg_ℤ, ◌≤ℤ◌};
ghost use Rattle.dpl_limits.specs.Limits.{most_coordinate};

/// An end of a side: its column and its row.
#[derive(Clone, Copy, Debug)]
pub struct End {
    pub column: i64,
    pub row: i64,
    pub ghost left: { neg_ℤ (pos most_coordinate) ≤ℤ column },
    pub ghost right: { column ≤ℤ pos most_coordinate },
}
