// The lists and the drawing of a report, read.
ghost use Rattle.std.specs.Prelude.{◌≡◌, IfOk};
ghost use Rattle.dpl_form.specs.Lines.{lines_in};
ghost use Rattle.dpl_parse.specs.Gives.{Gives};
ghost use Rattle.dpl_parse.specs.Pieces.{plain_lists};
ghost use Rattle.dpl_report.specs.ReportLines.{mask_line};
ghost use Rattle.dpl_report.specs.Reading as reading;

use crate::blocks::aside;
use crate::boxes::{Boxes, front_boxes};
use crate::lines::{Clashes, Cuts, front_clashes, front_cuts};
use crate::parts::exactly;
use crate::stops::Stop;
use dpl_list::Items;
use dpl_report::writing::push_mask;
use dpl_walks::{Cycles, front_cycles};
use std::alloc::Global;

/// What is broken, what is set aside, and the walks that show the bound.
#[derive(Drop)]
pub struct Lists<'a> {
    pub cuts: Cuts<'a>,
    pub clashes: Clashes<'a>,
    pub aside: Items<u32>,
    pub cycles: Cycles<'a>,
}

/// What is broken, what is set aside and the walks, as far as lines of each kind go on in this
/// order, and what follows them. Its error is want of memory.
#[tactic(auto, unfolding(dpl_report::specs::Reading::read_lists))]
pub fn lists_of(alloc: Global, text: &[u8]) -> Result<(Lists<'_>, &[u8]), Stop>
    ensures { Gives (λ x. (plain_lists x.0, lines_in x.1.now)) result
        (reading.read_lists (lines_in text.now)) }
{
    let (cuts, rest) = front_cuts(text);
    let (clashes, rest) = front_clashes(rest);
    let (aside, rest) = aside(alloc, rest)?;
    let (cycles, rest) = front_cycles(rest);
    let lists = Lists {
        cuts,
        clashes,
        aside: Items::new(aside),
        cycles,
    };
    Ok((lists, rest))
}

/// The boxes behind the layer of a mask.
#[tactic(auto, unfolding(dpl_report::specs::Reading::read_mask))]
fn mask<'a>(
    alloc: Global,
    name: &[u8],
    letter: u8,
    text: &'a [u8],
) -> Result<(Boxes<'a>, &'a [u8]), Stop>
    ensures { Gives (λ x. (x.0, lines_in x.1.now)) result (reading.read_mask name.now letter (lines_in text.now)) }
{
    let mut wanted = Vec::new(alloc);
    push_mask(&mut wanted, name, letter)?;
    let rest = exactly(wanted.as_slice(), text)?;
    Ok(front_boxes(rest))
}

#[tactic(auto, unfolding(dpl_report::specs::Reading::read_last))]
fn last(text: &[u8]) -> Result<&[u8], Stop>
    ensures { Gives (λ x. (tt, lines_in x.now)) result (reading.read_last (lines_in text.now)) }
{
    let rest = exactly(b"DF;\n", text)?;
    let rest = exactly(b"C 1;\n", rest)?;
    exactly(b"E\n", rest)
}

/// Two masks.
#[derive(Drop)]
pub struct Drawing<'a> {
    pub on_a: Boxes<'a>,
    pub on_b: Boxes<'a>,
}

/// The boxes of both masks, in grid units, drawn on the layers of this name with A and with B
/// behind it, and what follows the drawing. Its error is the first line that cannot stand, or want
/// of memory.
#[tactic(auto, unfolding(dpl_report::specs::Reading::read_drawing))]
pub fn drawing_of<'a>(
    alloc: Global,
    name: &[u8],
    text: &'a [u8],
) -> Result<(Drawing<'a>, &'a [u8]), Stop>
    ensures { Gives (λ x. (
      (x.0.on_a, x.0.on_b),
      lines_in x.1.now,
    )) result (reading.read_drawing name.now (lines_in text.now)) }
{
    let rest = exactly(b"DS 1 1 4;\n", text)?;
    let (on_a, rest) = mask(alloc, name, b'A', rest)?;
    let (on_b, rest) = mask(alloc, name, b'B', rest)?;
    let rest = last(rest)?;
    Ok((Drawing { on_a, on_b }, rest))
}
