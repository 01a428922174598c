// The lines of a report before its lists, read.
ghost use Rattle.std.specs.Prelude.{◌≡◌, map, IfOk};
ghost use Rattle.dpl_form.specs.Lines.{lines_in};
ghost use Rattle.dpl_parse.specs.Gives.{Gives};
ghost use Rattle.dpl_report.specs.Plain.{params_with as plain_params};
ghost use Rattle.dpl_parse.specs.Pieces.{plain_head};
ghost use Rattle.dpl_report.specs.Reading as reading;

use crate::letters::Letters;
use crate::parts::{count, keep, layer, masks, version};
use crate::stops::Stop;
use dpl_lex::Name;
use dpl_report::{Counts, More, Params, Values};
use std::alloc::Global;

/// The lines before the lists.
#[derive(Drop)]
pub struct Head<'a> {
    pub params: Params,
    pub counts: Counts,
    pub cost: u64,
    pub bound: u64,
    pub colours: Letters<'a>,
}

#[tactic(auto, unfolding(dpl_report::specs::Reading::read_values))]
fn values_in(alloc: Global, text: &[u8]) -> Result<(Values, &[u8]), Stop>
    ensures { Gives (λ x. (x.0, lines_in x.1.now)) result
        (reading.read_values (lines_in text.now)) }
{
    let (layer, rest) = layer(alloc, text)?;
    let (space, rest) = count(alloc, b"space", rest)?;
    let (overlap, rest) = count(alloc, b"overlap", rest)?;
    let (stitch, rest) = count(alloc, b"stitch", rest)?;
    let (conflict, rest) = count(alloc, b"conflict", rest)?;
    let values = Values {
        layer,
        space,
        overlap,
        stitch,
        conflict,
    };
    Ok((values, rest))
}

/// The corner weight and what follows it.
#[tactic(auto, unfolding(dpl_report::specs::Reading::read_corner))]
fn corner(alloc: Global, text: &[u8]) -> Result<(More, &[u8]), Stop>
    ensures { Gives (λ x. (x.0, lines_in x.1.now)) result
        (reading.read_corner (lines_in text.now)) }
{
    let (corner, rest) = count(alloc, b"corner", text)?;
    let (keep, rest) = keep(alloc, rest)?;
    let corner = Some(corner);
    Ok((More { corner, keep }, rest))
}

/// What a report of this version has behind the masks.
#[tactic(auto, unfolding(dpl_report::specs::Reading::read_more))]
fn more_in(alloc: Global, second: bool, text: &[u8]) -> Result<(More, &[u8]), Stop>
    ensures { Gives (λ x. (x.0, lines_in x.1.now)) result
        (reading.read_more second (lines_in text.now)) }
{
    if second {
        corner(alloc, text)
    } else {
        let (corner, keep) = (None, None);
        Ok((More { corner, keep }, text))
    }
}

fn params_with(values: Values, more: More) -> Params
    ensures { result ≡ plain_params values more }
{
    Params {
        layer: values.layer,
        space: values.space,
        overlap: values.overlap,
        stitch: values.stitch,
        conflict: values.conflict,
        corner: more.corner,
        keep: more.keep,
    }
}

#[tactic(auto, unfolding(dpl_report::specs::Reading::read_counts))]
fn counts(alloc: Global, text: &[u8]) -> Result<(Counts, &[u8]), Stop>
    ensures { Gives (λ x. (x.0, lines_in x.1.now)) result
        (reading.read_counts (lines_in text.now)) }
{
    let (pieces, rest) = count(alloc, b"pieces", text)?;
    let (fragments, rest) = count(alloc, b"fragments", rest)?;
    let (bonds, rest) = count(alloc, b"bonds", rest)?;
    let (stitches, rest) = count(alloc, b"stitches", rest)?;
    let (clashes, rest) = count(alloc, b"clashes", rest)?;
    let (excess, rest) = count(alloc, b"excess", rest)?;
    let counts = Counts {
        pieces,
        fragments,
        bonds,
        stitches,
        clashes,
        excess,
    };
    Ok((counts, rest))
}

/// The lines before the lists, of either version, and what follows them. Its error is the first
/// line that cannot stand, or want of memory.
#[tactic(auto, unfolding(dpl_report::specs::Reading::read_head))]
pub fn head_of(alloc: Global, text: &[u8]) -> Result<(Head<'_>, &[u8]), Stop>
    ensures { Gives (λ x. (plain_head x.0, lines_in x.1.now)) result
        (reading.read_head (lines_in text.now)) }
{
    let (second, rest) = version(text)?;
    let (values, rest) = values_in(alloc, rest)?;
    let (counts, rest) = counts(alloc, rest)?;
    let (cost, rest) = count(alloc, b"cost", rest)?;
    let (bound, rest) = count(alloc, b"bound", rest)?;
    let (colours, rest) = masks(counts.fragments, rest)?;
    let (more, rest) = more_in(alloc, second, rest)?;
    let params = params_with(values, more);
    let head = Head {
        params,
        counts,
        cost,
        bound,
        colours,
    };
    Ok((head, rest))
}
