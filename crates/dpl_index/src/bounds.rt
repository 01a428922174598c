// Ranges of columns and rows that bound items: whether they meet, and what holds two of them.
ghost use Rattle.std.specs.Prelude.{◌↔◌, ◌≤ℤ◌, IsTrue};
ghost use Rattle.dpl_index.specs.Meetings.{Meets};
ghost use Rattle.dpl_index.specs.Holds.{Holds};

/// Columns from `left` to `right` and rows from `low` to `high`; all four belong to them.
#[derive(Clone, Copy, Debug, PartialEq, Eq)]
pub struct Bounds {
    pub left: i64,
    pub right: i64,
    pub low: i64,
    pub high: i64,
}

/// Whether bounds have a column and a row in common.
pub fn do_meet(a: &Bounds, b: &Bounds) -> bool
    ensures { IsTrue result ↔ Meets a.now b.now }
{
    overlap(a.left, a.right, b.left, b.right) && overlap(a.low, a.high, b.low, b.high)
}

/// Whether two ranges have a number in common.
fn overlap(a1: i64, a2: i64, b1: i64, b2: i64) -> bool
    ensures { IsTrue result ↔ (a1 ≤ℤ b2) × (b1 ≤ℤ a2) }
{
    a1 <= b2 && b1 <= a2
}

/// The least bounds that hold both.
pub fn around(a: &Bounds, b: &Bounds) -> Bounds
    ensures first { Holds result a.now }
    ensures second { Holds result b.now }
{
    let left = lesser(a.left, b.left);
    let right = greater(a.right, b.right);
    let low = lesser(a.low, b.low);
    let high = greater(a.high, b.high);
    Bounds {
        left,
        right,
        low,
        high,
    }
}

fn lesser(a: i64, b: i64) -> i64
    ensures first { result ≤ℤ a }
    ensures second { result ≤ℤ b }
{
    if a < b { a } else { b }
}

fn greater(a: i64, b: i64) -> i64
    ensures first { a ≤ℤ result }
    ensures second { b ≤ℤ result }
{
    if a < b { b } else { a }
}
