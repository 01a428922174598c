// The edges that are set aside, each tried by the excess with it and without it.
ghost use Rattle.std.specs.Prelude.{◌≡◌, IfOk};
ghost use Rattle.dpl_sign.specs.Excess.{kept_edges as kept_of, aside_edges as aside_of};

use crate::euler::excess;
use dpl_list::Items;
use dpl_sign::{Net, is_in};
use std::alloc::{AllocError, Global};

/// For each edge whether it is kept. The others are set aside: each raises the excess of the edges
/// that are kept before it.
pub fn kept_edges(alloc: Global, net: &Net) -> Result<Items<bool>, AllocError>
    ensures { IfOk result (λ kept. kept ≡ kept_of net.now) }
{
    let mut kept = Vec::new(alloc);
    for edge in 0..net.graph.edges.as_slice().len() as u32 {
        let before = excess(alloc, net, &kept)?;
        kept.push(true)?;
        let after = excess(alloc, net, &kept)?;
        if before < after {
            kept.pop();
            kept.push(false)?;
        }
    }
    Ok(Items::new(kept))
}

/// The numbers of the edges that are set aside, in order.
pub fn aside_edges(alloc: Global, net: &Net) -> Result<Items<u32>, AllocError>
    ensures { IfOk result (λ aside. aside ≡ aside_of net.now) }
{
    let kept = kept_edges(alloc, net)?;
    let mut aside = Vec::new(alloc);
    for edge in 0..net.graph.edges.as_slice().len() as u32 {
        if !is_in(kept.as_slice(), edge) {
            aside.push(edge)?;
        }
    }
    Ok(Items::new(aside))
}
