// The cut and the clash lines of a report, read where they stand: nothing is stored.
ghost use Rattle.std.specs.Prelude.{◌≡◌, ◌∷◌, [], zero, IfOk, MatchOption, Ok};
ghost use Rattle.dpl_form.specs.Lines.{lines_in};
ghost use Rattle.dpl_parse.specs.Blocks.{rising_block};
ghost use Rattle.dpl_report.specs.Plain.{plain_zone};
ghost use Rattle.dpl_report.specs.Reading as reading;

use crate::blocks::other_line;
use crate::items::item_in;
use crate::rising::{CutLine, Rising};
use dpl_form::first_line;
use dpl_report::{Broken, Zone};
use std::alloc::{AllocError, Global};
use std::marker::{Model, PhantomData};

/// What lines say of edges that rise, read one after another. Contracts see what is left of it.
#[derive(Drop)]
pub struct RisingLines<'a, T: Rising> {
    text: &'a [u8],
    least: u64,
    kind: PhantomData<T>,
}

/// The broken stitches with their zones, in grid units, of cut lines.
pub type Cuts<'a> = RisingLines<'a, CutLine>;

/// The broken clashes of clash lines.
pub type Clashes<'a> = RisingLines<'a, Broken>;

impl<'a, T: Rising> Model for RisingLines<'a, T> {
    ghost use Rattle.std.specs.Prelude.{List};
    ghost use Rattle.dpl_parse.specs.Blocks.{rising_left};

    ghost Value = { List T };

    ghost view = { λ s. rising_left T.made_of T.edge_of T.line_of s.least s.text.now };
}

impl<'a, T: Rising> RisingLines<'a, T> {
    /// The first of them, which leaves the others. Its error is want of memory.
    pub fn next_item(&mut self, alloc: Global) -> Result<Option<T>, AllocError>
        ensures { IfOk result (λ o. MatchOption o (self.old ≡ [])
            (λ x. self.old ≡ x ∷ self.new)) }
    {
        let Some((line, rest)) = first_line(self.text) else {
            return Ok(None);
        };
        let Some(item) = item_in::<T>(self.least, line) else {
            return Ok(None);
        };
        self.least = u64::from(item.edge()) + 1;
        self.text = rest;
        Ok(Some(item))
    }

    /// The same lines once more.
    pub fn again(&self) -> RisingLines<'a, T>
        ensures { result ≡ self.now }
    {
        RisingLines {
            text: self.text,
            least: self.least,
            kind: PhantomData,
        }
    }
}

impl<'a> Cuts<'a> {
    /// The first of them, which leaves the others. Its error is want of memory.
    pub fn next_cut(&mut self, alloc: Global) -> Result<Option<Zone>, AllocError>
        ensures { IfOk result (λ o. MatchOption o (self.old ≡ [])
            (λ z. self.old ≡ plain_zone z ∷ self.new)) }
    {
        match self.next_item(alloc)? {
            Some(line) => Ok(Some(line.zone)),
            None => Ok(None),
        }
    }
}

/// What follows the lines of this kind at the front, whose edges rise.
fn behind<T: Rising>(text: &[u8]) -> &[u8]
    ensures { lines_in result.now ≡
        (rising_block T.made_of T.edge_of T.line_of zero (lines_in text.now)).1 }
{
    let mut rest = text;
    let mut least = 0;
    'lines: while let Some((line, others)) = other_line(rest) {
        let Some(item) = item_in::<T>(least, line) else {
            return rest;
        };
        least = u64::from(item.edge()) + 1;
        rest = others;
    }
    rest
}

/// The cut lines at the front, whose edges rise, and what follows them.
#[tactic(auto, unfolding(dpl_report::specs::Reading::read_cuts))]
pub fn front_cuts(text: &[u8]) -> (Cuts<'_>, &[u8])
    ensures { reading.read_cuts (lines_in text.now) ≡ Ok (result.0, lines_in result.1.now) }
{
    let rest = behind::<CutLine>(text);
    let lines = RisingLines {
        text,
        least: 0,
        kind: PhantomData,
    };
    (lines, rest)
}

/// The clash lines at the front, whose edges rise, and what follows them.
#[tactic(auto, unfolding(dpl_report::specs::Reading::read_clashes))]
pub fn front_clashes(text: &[u8]) -> (Clashes<'_>, &[u8])
    ensures { reading.read_clashes (lines_in text.now) ≡ Ok (result.0, lines_in result.1.now) }
{
    let rest = behind::<Broken>(text);
    let lines = RisingLines {
        text,
        least: 0,
        kind: PhantomData,
    };
    (lines, rest)
}
