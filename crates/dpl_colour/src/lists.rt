//! The nodes of each name in a list, from the node that has the name itself to the last one.

ghost use Rattle.std.specs.Prelude.{◌≡◌, ◌<◌, ◌⊎◌, length, IfOk, EachIndex, slice_index, slice_set};

use std::alloc::{AllocError, Global};

/// For each node the next one of its name, and for each name its last node and how many it has.
#[derive(Drop)]
pub struct Lists {
    pub next: Vec<u32>,
    pub last: Vec<u32>,
    pub lengths: Vec<u32>,
}

/// The numbers below n in order.
pub fn ascending(alloc: Global, n: u32) -> Result<Vec<u32>, AllocError>
    ensures length { IfOk result (λ v. length v.items ≡ n) }
    ensures each { IfOk result (λ v. EachIndex v.items (λ k. slice_index v.items k ≡ k)) }
{
    let mut v = Vec::new(alloc);
    for i in 0..n {
        v.push(i)?;
    }
    Ok(v)
}

/// Each node below n in a list of its own.
pub fn singles(alloc: Global, n: u32) -> Result<Lists, AllocError>
    ensures nexts { IfOk result (λ l. length l.next.items ≡ n) }
    ensures lasts { IfOk result (λ l. length l.last.items ≡ n) }
    ensures lengths { IfOk result (λ l. length l.lengths.items ≡ n) }
    ensures next { IfOk result (λ l. EachIndex l.next.items (λ k. slice_index l.next.items k ≡ k)) }
    ensures last { IfOk result (λ l. EachIndex l.last.items (λ k. slice_index l.last.items k ≡ k)) }
{
    let next = ascending(alloc, n)?;
    let last = ascending(alloc, n)?;
    let lengths = vec![in alloc; 1u32; n as usize]?;
    Ok(Lists {
        next,
        last,
        lengths,
    })
}

/// Puts the list of one name behind that of another.
pub fn append(lists: &mut Lists, from: u32, to: u32)
    requires from { from < length lists.old.last.items }
    requires to { to < length lists.old.last.items }
    requires node { slice_index lists.old.last.items to < length lists.old.next.items }
    requires lengths { length lists.old.lengths.items ≡ length lists.old.last.items }
    ensures next { lists.new.next.items ≡
        slice_set lists.old.next.items (slice_index lists.old.last.items to) from }
    ensures last { lists.new.last.items ≡
        slice_set lists.old.last.items to (slice_index lists.old.last.items from) }
    ensures lengths { length lists.new.lengths.items ≡ length lists.old.lengths.items }
{
    let end = lists.last[to as usize];
    lists.next[end as usize] = from;
    lists.last[to as usize] = lists.last[from as usize];
    let more = lists.lengths[from as usize];
    lists.lengths[to as usize] = lists.lengths[to as usize].saturating_add(more);
}

/// The two names, that of the shorter list first. Which comes first is for speed alone: a node gets
/// another name only where its list becomes at least twice as long.
pub fn shorter_first(lengths: &[u32], a: u32, b: u32) -> (u32, u32)
    requires first { a < length lengths.now }
    requires second { b < length lengths.now }
    ensures { ((result.0 ≡ b) × (result.1 ≡ a)) ⊎ ((result.0 ≡ a) × (result.1 ≡ b)) }
{
    if lengths[a as usize] < lengths[b as usize] {
        (a, b)
    } else {
        (b, a)
    }
}
