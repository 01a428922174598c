// Which nodes stay with all their edges.
ghost use Rattle.std.specs.Prelude.{◌≡◌, ◌<◌, ◌≤◌, ℕ, false, length, slice_index_or, slice_set, All, IfOk, map, replicate, true};
ghost use Rattle.dpl_sign.specs.Kinds.{EndsBelow};
ghost use Rattle.dpl_stay.specs.Marks.{has_partner, without_ends, without_partners, without_spoiled, unset};

use dpl_sign::Edge;
use std::alloc::{AllocError as NoMemory, Global};

/// Which nodes have a partner.
pub fn with_partner(alloc: Global, partners: &[Option<u32>]) -> Result<Vec<bool>, NoMemory>
    ensures { IfOk result (λ v. v.items ≡ map has_partner partners.now) }
{
    let mut fine = Vec::new(alloc);
    for partner in partners {
        fine.push(partner.is_some())?;
    }
    Ok(fine)
}

/// Takes out the ends of each edge that has no twin.
pub fn take_ends(fine: &mut [bool], edges: &[Edge], twins: &[Option<u32>])
    requires long { length twins.now ≡ length edges.now }
    requires inside { EndsBelow (length fine.old) edges.now }
    ensures { fine.new ≡ without_ends edges.now twins.now fine.old (length edges.now) }
{
    for e in 0..edges.len() {
        if twins[e].is_none() {
            fine[edges[e].a as usize] = false;
            fine[edges[e].b as usize] = false;
        }
    }
}

fn take(fine: &mut [bool], node: Option<u32>)
    ensures { fine.new ≡ unset fine.old node }
{
    if let Some(v) = node
        && (v as usize) < fine.len()
    {
        fine[v as usize] = false;
    }
}

/// Takes out the partners of the ends of each edge of the other net that has no twin.
pub fn take_partners(
    fine: &mut [bool],
    edges: &[Edge],
    twins: &[Option<u32>],
    partners: &[Option<u32>],
)
    requires long { length twins.now ≡ length edges.now }
    requires inside { EndsBelow (length partners.now) edges.now }
    ensures { fine.new ≡ without_partners edges.now twins.now partners.now fine.old (length edges.now) }
{
    for e in 0..edges.len() {
        if twins[e].is_none() {
            take(fine, partners[edges[e].a as usize]);
            take(fine, partners[edges[e].b as usize]);
        }
    }
}

/// Takes out the component of each node that is out.
fn take_components(whole: &mut [bool], fine: &[bool], number: &[u32])
    requires long { length number.now ≡ length fine.now }
    requires within { All (λ c. c < length whole.old) number.now }
    ensures { whole.new ≡ without_spoiled fine.now number.now whole.old (length fine.now) }
{
    for v in 0..fine.len() {
        if !fine[v] {
            whole[number[v] as usize] = false;
        }
    }
}

/// Which nodes are of a component all of whose nodes are fine.
pub fn of_whole_components(
    alloc: Global,
    fine: &[bool],
    number: &[u32],
    count: u32,
) -> Result<Vec<bool>, NoMemory>
    requires long { length number.now ≡ length fine.now }
    requires within { All (λ c. c < count) number.now }
    ensures long { IfOk result (λ v. length v.items ≡ length fine.now) }
    ensures each { IfOk result (λ v. (u : ℕ) → u < length fine.now → slice_index_or v.items u false
        ≡ slice_index_or (without_spoiled fine.now number.now (replicate count true) (length fine.now))
        (slice_index_or number.now u 0) false) }
{
    let mut whole = vec![in alloc; true; count as usize]?;
    take_components(whole.as_mut_slice(), fine, number);
    let found = looked_up(alloc, whole.as_slice(), number)?;
    Ok(found)
}

fn looked_up(alloc: Global, whole: &[bool], number: &[u32]) -> Result<Vec<bool>, NoMemory>
    requires { All (λ c. c < length whole.now) number.now }
    ensures long { IfOk result (λ v. length v.items ≡ length number.now) }
    ensures each { IfOk result (λ v. (u : ℕ) → u < length number.now → slice_index_or v.items u false
        ≡ slice_index_or whole.now (slice_index_or number.now u 0) false) }
{
    let mut found = Vec::new(alloc);
    for component in number {
        found.push(whole[*component as usize])?;
    }
    Ok(found)
}
