//! Colours that stay.
ghost use Rattle.std.specs.Prelude.{◌≡◌, ◌<◌, ℕ, length, IfOk};
ghost use Rattle.dpl_sign.specs.Colourings.{IsColouring, colour_of};
ghost use Rattle.dpl_parts.specs.Parts.{IsBest, broken_on};
ghost use Rattle.dpl_stay.specs.Same.{corners_at, AreSame};
ghost use Rattle.dpl_stay.specs.Order.{IsInOrder};

use crate::comparing::compare;
use crate::laying::laid_over;
use dpl_cell::Rect;
use dpl_parts::{gather, optima_stay};
use dpl_sign::Net;
use std::alloc::{AllocError as NoMemory, Global};

/// A net with the rectangles of its nodes, and colours of them.
#[derive(Clone, Copy)]
pub struct Coloured<'a> {
    pub rects: &'a [Rect],
    pub net: &'a Net,
    pub colours: &'a [bool],
}

/// Colours of the new net in which each component that is the same as one of the old net has the colours that it had
/// there, and every other component its new ones. Where both colourings are the best of their nets, so are these: they
/// break kept edges of the same weight.
pub fn keep_colours(
    alloc: Global,
    old: &Coloured<'_>,
    new: &Coloured<'_>,
) -> Result<Vec<bool>, NoMemory>
    requires old { IsInOrder old.now.rects.now old.now.net.now }
    requires new { IsInOrder new.now.rects.now new.now.net.now }
    requires one { length new.now.colours.now ≡ new.now.net.now.graph.nodes }
    ensures long { IfOk result (λ c. length c.items ≡ new.now.net.now.graph.nodes) }
    ensures kept { IfOk result (λ c. (v w : ℕ) →
        v < new.now.net.now.graph.nodes → w < old.now.net.now.graph.nodes →
        AreSame new.now.rects.now old.now.rects.now new.now.net.now old.now.net.now v w →
        corners_at new.now.rects.now v ≡ corners_at old.now.rects.now w →
        colour_of c.items v ≡ colour_of old.now.colours.now w) }
    ensures best { IfOk result (λ c. IsColouring old.now.net.now.graph old.now.colours.now →
        IsColouring new.now.net.now.graph new.now.colours.now →
        IsBest old.now.net.now old.now.colours.now → IsBest new.now.net.now new.now.colours.now →
        IsColouring new.now.net.now.graph c.items ×
        (broken_on new.now.net.now c.items ≡ broken_on new.now.net.now new.now.colours.now)) }
{
    let stay = compare(alloc, old.rects, old.net, new.rects, new.net)?;
    // The law is about the net of what stays.
    let _part = gather(alloc, new.net, stay.taken.as_slice())?;
    let found = laid_over(
        alloc,
        stay.taken.as_slice(),
        stay.partners.as_slice(),
        old.colours,
        new.colours,
    )?;
    optima_stay();
    Ok(found)
}
