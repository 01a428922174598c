// Ranges of columns and of places in a list, and the lesser and the greater of two numbers.
ghost use Rattle.std.specs.Prelude.{◌≡◌, ◌⊎◌, ℤ, ◌≤ℤ◌};

use dpl_index::Bounds;

/// Columns from `left` to `right`.
#[derive(Clone, Copy, Debug)]
pub struct Columns {
    pub left: i64,
    pub right: i64,
}

/// The places of a list from `from` to `to`, which is left out.
#[derive(Clone, Copy, Debug)]
pub struct Places {
    pub from: usize,
    pub to: usize,
}

/// The lesser of two numbers.
pub fn lesser(a: i64, b: i64) -> i64
    ensures first { result ≤ℤ a }
    ensures second { result ≤ℤ b }
    ensures one { (result ≡ a) ⊎ (result ≡ b) }
{
    if a < b { a } else { b }
}

/// The greater of two numbers.
pub fn greater(a: i64, b: i64) -> i64
    ensures first { a ≤ℤ result }
    ensures second { b ≤ℤ result }
    ensures one { (result ≡ a) ⊎ (result ≡ b) }
{
    if a < b { b } else { a }
}

/// The columns of a window in one row.
pub fn row_within(window: &Columns, y: i64) -> Bounds
    ensures { result ≡ record { left = window.now.left; right = window.now.right; low = y; high = y } }
{
    Bounds {
        left: window.left,
        right: window.right,
        low: y,
        high: y,
    }
}
