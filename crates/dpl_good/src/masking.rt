// The rectangles of the two masks.
ghost use Rattle.std.specs.Prelude.{◌≡◌, [], ◌++◌, false, true, length, IfOk, OnOk};
ghost use Rattle.dpl_sign.specs.Colourings.{colour_of};
ghost use Rattle.dpl_good.specs.MaskRects.{where_same, fragments_on, zones_of, mask_of, is_zone};

use crate::types::Masks;
use dpl_cell::Rect;
use dpl_cuts::types::{Cut, Fragments};
use std::alloc::{AllocError as NoMemory, Global};

#[tactic(auto, using(crate::proofs::MaskLemmas::one_rect))]
fn fragments_on(
    alloc: Global,
    on_b: bool,
    rects: &[Rect],
    colours: &[bool],
) -> Result<Vec<Rect>, NoMemory>
    ensures { IfOk result (λ v. v.items ≡ fragments_on on_b rects.now colours.now) }
{
    let mut found = Vec::new(alloc);
    let mut left = colours;
    for rect in rects {
        let Some((colour, others)) = left.split_first() else {
            return Ok(found);
        };
        push_where(&mut found, *colour == on_b, *rect)?;
        left = others;
    }
    Ok(found)
}

fn push_where(found: &mut Vec<Rect>, holds: bool, rect: Rect) -> Result<(), NoMemory>
    ensures { OnOk result (found.new.items ≡ found.old.items ++ where_same holds rect []) }
{
    if holds {
        found.push(rect)?;
    }
    Ok(())
}

/// The colour of a node, `false` also where it has none.
pub fn colour_at(colours: &[bool], node: u32) -> bool
    ensures { result ≡ colour_of colours.now node }
{
    let node = node as usize;
    node < colours.len() && colours[node]
}

fn is_broken_at(colours: &[bool], cut: &Cut) -> bool
    ensures { result ≡ is_zone colours.now cut.now }
{
    colour_at(colours, cut.a) != colour_at(colours, cut.b)
}

#[tactic(auto, using(crate::proofs::MaskLemmas::one_rect))]
fn push_zones(found: &mut Vec<Rect>, cuts: &[Cut], colours: &[bool]) -> Result<(), NoMemory>
    ensures { OnOk result (found.new.items ≡ found.old.items ++ zones_of colours.now cuts.now) }
{
    for cut in cuts {
        push_where(found, is_broken_at(colours, cut), cut.zone)?;
    }
    Ok(())
}

fn mask(
    alloc: Global,
    on_b: bool,
    fragments: &Fragments,
    colours: &[bool],
) -> Result<Vec<Rect>, NoMemory>
    ensures { IfOk result (λ v. v.items ≡ mask_of on_b fragments.now colours.now) }
{
    let mut found = fragments_on(alloc, on_b, fragments.rects.as_slice(), colours)?;
    push_zones(&mut found, fragments.cuts.as_slice(), colours)?;
    Ok(found)
}

/// The fragments of each mask in order, and behind them the zones of the broken stitches.
pub fn masks(alloc: Global, fragments: &Fragments, colours: &[bool]) -> Result<Masks, NoMemory>
    requires { length colours.now ≡ length fragments.now.rects }
    ensures on_a { IfOk result (λ m. m.on_a.items ≡ mask_of false fragments.now colours.now) }
    ensures on_b { IfOk result (λ m. m.on_b.items ≡ mask_of true fragments.now colours.now) }
{
    let on_a = mask(alloc, false, fragments, colours)?;
    let on_b = mask(alloc, true, fragments, colours)?;
    Ok(Masks { on_a, on_b })
}
