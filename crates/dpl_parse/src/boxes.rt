// The box lines of a report, read where they stand: no rectangle is stored.
ghost use Rattle.std.specs.Prelude.{◌≡◌, ◌∷◌, [], length, IfOk, MatchOption, Ok};
ghost use Rattle.dpl_cell.specs.Places.{corners_of};
ghost use Rattle.dpl_form.specs.Lines.{lines_in};
ghost use Rattle.dpl_parse.specs.Blocks.{box_block, boxes_left};
ghost use Rattle.dpl_report.specs.Reading as reading;

use crate::drawn::box_in;
use dpl_cell::Rect;
use dpl_form::first_line;
use std::alloc::{AllocError, Global};
use std::marker::Model;

/// The rectangles, in grid units, of box lines, read one after another. Contracts see the corners
/// of those that are left.
#[derive(Drop)]
pub struct Boxes<'a> {
    text: &'a [u8],
    left: usize,
}

impl<'a> Model for Boxes<'a> {
    ghost use Rattle.std.specs.Prelude.{◌≡◌, List, length};
    ghost use Rattle.dpl_cell.specs.Places.{Corners};
    ghost use Rattle.dpl_parse.specs.Blocks.{boxes_left};

    ghost Value = { List Corners };

    ghost view = { λ s. boxes_left s.text.now };

    ghost invariant = { λ s. s.left ≡ length (boxes_left s.text.now) };
}

impl<'a> Boxes<'a> {
    /// How many are left.
    pub fn len(&self) -> usize
        ensures { result ≡ length self.now }
    {
        self.left
    }

    /// The first of them, which leaves the others. Its error is want of memory.
    pub fn next_box(&mut self, alloc: Global) -> Result<Option<Rect>, AllocError>
        ensures { IfOk result (λ o. MatchOption o (self.old ≡ [])
            (λ r. self.old ≡ corners_of r ∷ self.new)) }
    {
        let Some((line, rest)) = first_line(self.text) else {
            return Ok(None);
        };
        let Some(rect) = box_in(line) else {
            return Ok(None);
        };
        self.left -= 1;
        self.text = rest;
        Ok(Some(rect))
    }

    /// The same lines once more.
    pub fn again(&self) -> Boxes<'a>
        ensures { result ≡ self.now }
    {
        Boxes {
            text: self.text,
            left: self.left,
        }
    }
}

/// How many box lines stand at the front, and what follows them.
fn count_boxes(text: &[u8]) -> (usize, &[u8])
    ensures count { result.0 ≡ length (boxes_left text.now) }
    ensures rest { lines_in result.1.now ≡ (box_block (lines_in text.now)).1 }
{
    let mut left = 0;
    let mut rest = text;
    'lines: while let Some((line, others)) = first_line(rest) {
        let Some(_) = box_in(line) else {
            return (left, rest);
        };
        left += 1;
        rest = others;
    }
    (left, rest)
}

/// The box lines at the front, and what follows them.
#[tactic(auto, unfolding(dpl_report::specs::Reading::read_boxes))]
pub fn front_boxes(text: &[u8]) -> (Boxes<'_>, &[u8])
    ensures { reading.read_boxes (lines_in text.now) ≡ Ok (result.0, lines_in result.1.now) }
{
    let (left, rest) = count_boxes(text);
    (Boxes { text, left }, rest)
}
