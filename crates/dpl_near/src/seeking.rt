// Places among rising numbers, looked for from a place that may be near them.
ghost use Rattle.std.specs.Prelude.{ℕ, ◌<◌, ◌≤◌, ◌<ℤ◌, ◌≤ℤ◌, ℤ, length, slice_index_or};
ghost use Rattle.dpl_near.specs.Seeking.{AreRising, IsPlacePast};

/// The place of the first number greater than one. It is looked for from a place on, farther and farther away, so it
/// costs the logarithm of how far it is.
pub fn place_past(numbers: &[i64], x: i64, near: usize) -> usize
    requires { AreRising numbers.now }
    ensures { IsPlacePast numbers.now x result }
{
    if near >= numbers.len() {
        return past_before(numbers, x, numbers.len());
    }
    if x < numbers[near] {
        return past_before(numbers, x, near);
    }
    past_from(numbers, x, near + 1)
}

/// The same where the numbers before a place are not greater.
fn past_from(numbers: &[i64], x: i64, start: usize) -> usize
    requires rising { AreRising numbers.now }
    requires within { start ≤ length numbers.now }
    requires low { (k : ℕ) (d : ℤ) → k < start → slice_index_or numbers.now k d ≤ℤ x }
    ensures { IsPlacePast numbers.now x result }
{
    let mut from = start;
    let mut step = 0;
    'farther: while step < numbers.len() - from {
        let to = from + step;
        if x < numbers[to] {
            return past_between(numbers, x, from, to);
        }
        from = to + 1;
        step = step + step + 1;
    }
    past_between(numbers, x, from, numbers.len())
}

/// The same where the numbers from a place on are greater.
fn past_before(numbers: &[i64], x: i64, end: usize) -> usize
    requires rising { AreRising numbers.now }
    requires within { end ≤ length numbers.now }
    requires high { (k : ℕ) (d : ℤ) → end ≤ k → k < length numbers.now →
        x <ℤ slice_index_or numbers.now k d }
    ensures { IsPlacePast numbers.now x result }
{
    let mut to = end;
    let mut step = 0;
    'farther: while step < to {
        let from = to - step;
        if numbers[from - 1] <= x {
            return past_between(numbers, x, from, to);
        }
        to = from - 1;
        step = step + step + 1;
    }
    past_between(numbers, x, 0, to)
}

/// The same where it is one place from one on up to another.
fn past_between(numbers: &[i64], x: i64, from: usize, to: usize) -> usize
    requires rising { AreRising numbers.now }
    requires order { from ≤ to }
    requires within { to ≤ length numbers.now }
    requires low { (k : ℕ) (d : ℤ) → k < from → slice_index_or numbers.now k d ≤ℤ x }
    requires high { (k : ℕ) (d : ℤ) → to ≤ k → k < length numbers.now →
        x <ℤ slice_index_or numbers.now k d }
    ensures { IsPlacePast numbers.now x result }
{
    from + numbers[from..to].partition_point(|number| *number <= x)
}
