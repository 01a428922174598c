// The root of each class, at the end of the ways up from its members.
ghost use Rattle.std.specs.Prelude.{◌≡◌, ℕ, List, ◌<◌, ◌^◌, length, All, IfOk, slice_index_or};
ghost use Rattle.dpl_classes.specs.Roots.{AreRoots, Falls};
ghost use Rattle.dpl_classes.specs.Ways.{AreTops, IsUnited};

use std::alloc::{AllocError as NoMemory, Global};

/// The least member of each member's class.
pub fn roots(alloc: Global, n: usize, pairs: &[(u32, u32)]) -> Result<Vec<u32>, NoMemory>
    requires few { n < 2 ^ 32 }
    requires within { All (λ p. (p.0 < n) × (p.1 < n)) pairs.now }
    ensures { IfOk result (λ v. AreRoots pairs.now n v.items) }
{
    let mut ups = singles(alloc, n)?;
    unite(ups.as_mut_slice(), pairs);
    flatten(ups.as_mut_slice());
    Ok(ups)
}

fn singles(alloc: Global, n: usize) -> Result<Vec<u32>, NoMemory>
    requires few { n < 2 ^ 32 }
    ensures long { IfOk result (λ v. length v.items ≡ n) }
    ensures each { IfOk result (λ v. (k : ℕ) → k < n → slice_index_or v.items k 0 ≡ k) }
{
    let mut ups = Vec::new(alloc);
    for i in 0..n {
        ups.push(i as u32)?;
    }
    Ok(ups)
}

/// Goes over the pairs, and lets the ways of the two classes of each pair end at the smaller end of the two.
fn unite(ups: &mut [u32], pairs: &[(u32, u32)])
    requires start { (k : ℕ) → k < length ups.old → slice_index_or ups.old k 0 ≡ k }
    requires within { All (λ p. (p.0 < length ups.old) × (p.1 < length ups.old)) pairs.now }
    ensures { IsUnited pairs.now (length ups.old) ups.new }
{
    for pair in pairs {
        let a = top(ups, pair.0);
        let b = top(ups, pair.1);
        ups[a.max(b) as usize] = a.min(b);
    }
}

/// The end of the way up from a member. The way becomes shorter.
fn top(ups: &mut [u32], of: u32) -> u32
    requires falls { Falls ups.old }
    requires inside { of < length ups.old }
    ensures falls { Falls ups.new }
    ensures inside { result < length ups.old }
    ensures end { slice_index_or ups.new result 0 ≡ result }
    ensures ends { (k : ℕ) → slice_index_or ups.old k 0 ≡ k → slice_index_or ups.new k 0 ≡ k }
    ensures same { (tops : List ℕ) → AreTops ups.old tops → AreTops ups.new tops }
    ensures top { (tops : List ℕ) → AreTops ups.old tops → result ≡ slice_index_or tops of 0 }
{
    let mut at = of;
    'up: while ups[at as usize] != at {
        let next = ups[ups[at as usize] as usize];
        ups[at as usize] = next;
        at = next;
    }
    at
}

/// Makes each way one step long.
fn flatten(ups: &mut [u32])
    requires falls { Falls ups.old }
    ensures { (tops : List ℕ) → AreTops ups.old tops → ups.new ≡ tops }
{
    for i in 0..ups.len() {
        ups[i] = ups[ups[i] as usize];
    }
}
