// Where the optimum of a component may be known.
ghost use Rattle.std.specs.Prelude.{◌<◌, ◌^◌, length};
ghost use Rattle.dpl_stay.specs.Order.{AreRectsInOrder};

use dpl_cell::Rect;
use dpl_stay::partners;
use dpl_sum::SolvedPart;
use std::alloc::{AllocError as NoMemory, Global};

/// A number that no part has.
const NONE: u32 = u32::MAX;

fn note(numbers: &mut [u32], nodes: &[u32], number: u32) {
    for node in nodes {
        if let Some(place) = numbers.get_mut(*node as usize) {
            *place = number;
        }
    }
}

/// For each of so many nodes the number of the part that has it.
fn part_numbers(alloc: Global, parts: &[SolvedPart], count: usize) -> Result<Vec<u32>, NoMemory> {
    let mut numbers = vec![in alloc; NONE; count]?;
    let mut number = 0u32;
    for part in parts {
        note(numbers.as_mut_slice(), part.part.nodes.as_slice(), number);
        number = number.saturating_add(1);
    }
    Ok(numbers)
}

fn number_of(numbers: &[u32], node: Option<u32>) -> u32 {
    let Some(node) = node else {
        return NONE;
    };
    match numbers.get(node as usize) {
        Some(number) => *number,
        None => NONE,
    }
}

/// For each rectangle the number of the old part that has it, where one has. It tells where to look: whether the
/// component is the same is looked at there.
pub fn places(
    alloc: Global,
    rects: &[Rect],
    old_rects: &[Rect],
    parts: &[SolvedPart],
) -> Result<Vec<u32>, NoMemory>
    requires order { AreRectsInOrder old_rects.now }
    requires few { length old_rects.now < 2 ^ 32 }
{
    let numbers = part_numbers(alloc, parts, old_rects.len())?;
    let partners = partners(alloc, rects, old_rects)?;
    let mut places = Vec::new(alloc);
    for partner in &partners {
        places.push(number_of(numbers.as_slice(), *partner))?;
    }
    Ok(places)
}
