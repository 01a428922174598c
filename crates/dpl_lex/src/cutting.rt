// A text is cut into its commands in one pass.
ghost use Rattle.std.specs.Prelude.{◌≡◌, ◌≤◌, ◌<◌, ◌+◌, ◌++◌, ◌^◌, ℕ, List, true, None, length, take, IfOk, OnErr};
ghost use Rattle.dpl_limits.specs.declared.TheConstants.{MOST_LAYOUT_BYTES};
ghost use Rattle.dpl_lex.specs.Cutting as cutting;
ghost use Rattle.dpl_lex.specs.CuttingLaws.{BlanksAreSkipped, EndEnds, EmptyIsCut, PlainIsCut, CommentIsCut, BlanksEnd, PlainRests, CommentRests, OpenCommentRests, CommandsAreWithin, CommandsAreFew};
ghost use Rattle.dpl_lex.specs.Cutting.{IsNoDeeper, cut, after};

use crate::classes::is_blank_byte;
use crate::types::{Ending, Span};
use std::alloc::AllocError;

/// Where the next byte of a text stands.
#[derive(Clone, Copy, Debug, PartialEq, Eq)]
pub enum Place {
    /// Before a command.
    Between,
    /// In a command that began there, or behind the closing parenthesis of a comment.
    Inside(u32),
    /// In a comment that began there, in so many more parentheses than its own.
    Comment(u32, u32),
    /// Behind the first byte of the end command.
    Ended,
}

fn next_between(at: u32, b: u8) -> Place
    ensures value { result ≡ cutting.next Place.Between at b }
    ensures shallow { IsNoDeeper (at + 1) result }
{
    if is_blank_byte(b) || b == b';' {
        Place::Between
    } else if b == b'E' {
        Place::Ended
    } else if b == b'(' {
        Place::Comment(at, 0)
    } else {
        Place::Inside(at)
    }
}

fn next_in_comment(start: u32, depth: u32, at: u32, b: u8) -> Place
    requires shallow { depth ≤ at }
    requires small { at < 2 ^ 31 }
    ensures value { result ≡ cutting.next (Place.Comment start depth) at b }
    ensures shallow { IsNoDeeper (at + 1) result }
{
    if b == b'(' {
        Place::Comment(start, depth + 1)
    } else if b != b')' {
        Place::Comment(start, depth)
    } else if depth == 0 {
        Place::Inside(start)
    } else {
        Place::Comment(start, depth - 1)
    }
}

/// The place behind a byte.
fn next(place: Place, at: u32, b: u8) -> Place
    requires shallow { IsNoDeeper at place }
    requires small { at < 2 ^ 31 }
    ensures value { result ≡ cutting.next place at b }
    ensures shallow { IsNoDeeper (at + 1) result }
{
    match place {
        Place::Between => next_between(at, b),
        Place::Inside(_) if b == b';' => Place::Between,
        Place::Comment(start, depth) => next_in_comment(start, depth, at, b),
        Place::Inside(_) | Place::Ended => place,
    }
}

/// The command that this byte finishes.
fn finished(place: Place, at: u32, b: u8) -> Option<Span>
    ensures { result ≡ cutting.finished place at b }
{
    if b != b';' {
        return None;
    }
    match place {
        Place::Between => Some(Span { start: at, end: at }),
        Place::Inside(start) => Some(Span { start, end: at }),
        Place::Comment(..) | Place::Ended => None,
    }
}

/// Whether a byte stands in a command and does not finish it, so that the place stays.
fn is_within(place: Place, b: u8) -> bool
    ensures next { result ≡ true → (at : ℕ) → cutting.next place at b ≡ place }
    ensures finished { result ≡ true → (at : ℕ) → cutting.finished place at b ≡ None }
{
    match place {
        Place::Inside(_) => b != b';',
        Place::Between | Place::Comment(..) | Place::Ended => false,
    }
}

/// How a text ends that ends here.
pub fn ending(place: Place) -> Ending
    ensures { result ≡ cutting.ending place }
{
    match place {
        Place::Between | Place::Inside(_) => Ending::NoEnd,
        Place::Comment(..) => Ending::Paren,
        Place::Ended => Ending::End,
    }
}

/// Goes on over a piece of a text that stands at `at`, and gives the place behind it.
pub fn pass(spans: &mut Vec<Span>, place: Place, at: u32, piece: &[u8]) -> Result<Place, AllocError>
    requires shallow { IsNoDeeper at place }
    requires small { at + length piece.now ≤ MOST_LAYOUT_BYTES }
    ensures cut { IfOk result (λ p. (rest : List ℕ) →
        after spans.new.items (cut p (at + length piece.now) rest)
        ≡ after spans.old.items (cut place at (piece.now ++ rest))) }
    ensures shallow { IfOk result (IsNoDeeper (at + length piece.now)) }
    ensures kept { OnErr result (take (length spans.old.items) spans.new.items
        ≡ spans.old.items) }
{
    let mut place = place;
    let mut at = at;
    let mut rest = piece;
    'bytes: while let Some((first, others)) = rest.split_first() {
        if let Some(span) = finished(place, at, *first) {
            spans.push(span)?;
        }
        place = next(place, at, *first);
        at += 1;
        rest = others;
        let behind = at;
        'within: while let Some((first, others)) = rest.split_first()
            && is_within(place, *first)
        {
            at += 1;
            rest = others;
        }
    }
    Ok(place)
}

/// The rules by which a text is cut, one by one. They are facts about `commands_of`; nothing runs.
pub fn cutting_rules()
    ensures blanks { BlanksAreSkipped }
    ensures end { EndEnds }
    ensures empty { EmptyIsCut }
    ensures plain { PlainIsCut }
    ensures comment { CommentIsCut }
    ensures nothing_left { BlanksEnd }
    ensures plain_rest { PlainRests }
    ensures comment_rest { CommentRests }
    ensures open_comment { OpenCommentRests }
    ensures within { CommandsAreWithin }
    ensures few { CommandsAreFew }
{}
