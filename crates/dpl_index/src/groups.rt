// Groups of items, by their kinds: a kind of many items is a group of its own.
use std::alloc::{AllocError as NoMemory, Global};

/// A kind of so many items has a group of its own; those of fewer share the group 0.
const MANY: u32 = 1_000;

/// There are no more groups of one kind than these.
const MOST_GROUPS: u64 = 255;

/// The group of each kind that is less than the number of kinds.
pub fn groups_of(alloc: Global, kinds: &[u32]) -> Result<Vec<u64>, NoMemory> {
    let counts = counts_of(alloc, kinds)?;
    let mut groups = Vec::with_capacity(alloc, counts.len())?;
    let mut last: u64 = 0;
    for count in &counts {
        if *count < MANY || last >= MOST_GROUPS {
            groups.push(0)?;
        } else {
            last = last.wrapping_add(1);
            groups.push(last)?;
        }
    }
    Ok(groups)
}

/// How many items there are of each kind.
fn counts_of(alloc: Global, kinds: &[u32]) -> Result<Vec<u32>, NoMemory> {
    let mut counts = vec![in alloc; 0u32; kinds.len()]?;
    for kind in kinds {
        if let Some(count) = counts.get_mut(*kind as usize) {
            *count = count.wrapping_add(1);
        }
    }
    Ok(counts)
}

/// The group of a kind.
pub fn group_at(groups: &[u64], kind: u32) -> u64 {
    match groups.get(kind as usize) {
        None => 0,
        Some(group) => *group,
    }
}

/// A place on the curve behind those of the groups before one. The groups take the place of the first bits.
pub fn place_within(group: u64, place: u64) -> u64 {
    group << 56 | place & 0x00ff_ffff_ffff_ffff
}
