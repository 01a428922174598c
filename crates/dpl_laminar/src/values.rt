//! Values of sets.

ghost use Rattle.std.specs.Prelude.{◌≡◌, ◌≤◌, ◌^◌, pos, ◌+ℤ◌, ◌≤ℤ◌};

/// A value with something added.
pub fn shifted(value: u64, by: i64) -> u64
    requires small { value ≤ 2 ^ 50 }
    requires least { pos 0 ≤ℤ (pos value +ℤ by) }
    requires most { (pos value +ℤ by) ≤ℤ pos (2 ^ 50) }
    ensures value { pos result ≡ pos value +ℤ by }
    ensures small { result ≤ 2 ^ 50 }
{
    let sum = value as i64 + by;
    sum as u64
}
