// The masks line of a report, read where it stands: no colour is stored.
ghost use Rattle.std.specs.Prelude.{◌≡◌, ◌≢◌, ℕ, List, ◌++◌, length, IfOk, MatchOption};
ghost use Rattle.std.specs.List.{list_all};
ghost use Rattle.dpl_parse.specs.Blocks.{is_mask_letter};
ghost use Rattle.dpl_report.specs.Reading as reading;

use dpl_walks::behind;
use std::alloc::{AllocError, Global};
use std::marker::Model;

/// The letters of a masks line. Contracts see a colour for each, `true` for B.
#[derive(Drop)]
pub struct Letters<'a> {
    letters: &'a [u8],
}

impl<'a> Model for Letters<'a> {
    ghost use Rattle.std.specs.Prelude.{List, Bool};
    ghost use Rattle.dpl_report.specs.Reading.{colours_from};

    ghost Value = { List Bool };

    ghost view = { λ s. colours_from s.letters.now };
}

impl<'a> Letters<'a> {
    /// How many there are.
    pub fn len(&self) -> usize
        ensures { result ≡ length self.now }
    {
        self.letters.len()
    }

    /// A colour for each. Its error is want of memory.
    pub fn colours(&self, alloc: Global) -> Result<Vec<bool>, AllocError>
        ensures { IfOk result (λ v. v.items ≡ self.now) }
    {
        colours_from(alloc, self.letters)
    }
}

fn colours_from(alloc: Global, letters: &[u8]) -> Result<Vec<bool>, AllocError>
    ensures { IfOk result (λ v. v.items ≡ reading.colours_from letters.now) }
{
    letters.iter().map(|b| *b == b'B').collect(alloc)
}

/// What stands before the end of a text, `None` where the text ends otherwise.
fn before<'a>(end: &[u8], text: &'a [u8]) -> Option<&'a [u8]>
    ensures { MatchOption result ((front : List ℕ) → text.now ≢ front ++ end.now) (λ left.
        text.now ≡ left.now ++ end.now) }
{
    text.strip_suffix(end)
}

/// Whether all are A or B.
fn are_mask_letters(letters: &[u8]) -> bool
    ensures { result ≡ list_all is_mask_letter letters.now }
{
    letters.iter().all(|b| *b == b'A' || *b == b'B')
}

/// The letters of a masks line for so many fragments, `None` where the line is none.
pub fn letters_in(fragments: u64, line: &[u8]) -> Option<Letters<'_>>
    ensures { result ≡ reading.item_masks fragments line.now }
{
    let Some(others) = behind(b"(masks ", line) else {
        return None;
    };
    let Some(letters) = before(b");\n", others) else {
        return None;
    };
    if letters.len() as u64 != fragments {
        return None;
    }
    if !are_mask_letters(letters) {
        return None;
    }
    Some(Letters { letters })
}
