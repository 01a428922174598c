// Old colours laid over new ones.
ghost use Rattle.std.specs.Prelude.{◌≡◌, ◌<◌, ℕ, false, length, slice_index_or, IfOk};
ghost use Rattle.dpl_sign.specs.Colourings as sign;
ghost use Rattle.dpl_stay.specs.Laying as laying;
ghost use Rattle.dpl_stay.specs.Pairs.{at};

use std::alloc::{AllocError as NoMemory, Global};

fn colour_of(colours: &[bool], v: u32) -> bool
    ensures { result ≡ sign.colour_of colours.now v }
{
    match colours.get(v as usize) {
        Some(colour) => *colour,
        None => false,
    }
}

fn chosen(taken: bool, partner: Option<u32>, before: &[bool], own: bool) -> bool
    ensures { result ≡ laying.chosen taken partner before.now own }
{
    match partner {
        Some(w) => { if taken { colour_of(before, w) } else { own } }
        None => own,
    }
}

/// The old colours of the partners of the taken nodes, and the new colours of all other nodes.
pub fn laid_over(
    alloc: Global,
    taken: &[bool],
    partners: &[Option<u32>],
    before: &[bool],
    after: &[bool],
) -> Result<Vec<bool>, NoMemory>
    requires taken { length taken.now ≡ length after.now }
    requires partners { length partners.now ≡ length after.now }
    ensures long { IfOk result (λ v. length v.items ≡ length after.now) }
    ensures each { IfOk result (λ c. (v : ℕ) → v < length after.now → slice_index_or c.items v false
        ≡ laying.chosen (slice_index_or taken.now v false) (at partners.now v) before.now
        (slice_index_or after.now v false)) }
{
    let mut found = Vec::new(alloc);
    for v in 0..after.len() {
        found.push(chosen(taken[v], partners[v], before, after[v]))?;
    }
    Ok(found)
}
