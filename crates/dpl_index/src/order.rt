// Numbers of items in order.
ghost use Rattle.std.specs.Prelude.{◌↔◌, ℕ, ◌<◌, AllPairs, Contains};

/// Puts numbers into ascending order, each once.
pub fn put_in_order(numbers: &mut Vec<usize>)
    ensures ordered { AllPairs (λ j k. j < k) numbers.new.items }
    ensures same { (x : ℕ) → Contains numbers.new.items x ↔ Contains numbers.old.items x }
{
    numbers.sort_unstable();
    numbers.dedup();
}
