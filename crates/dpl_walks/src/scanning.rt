// A cycle line, told by its bytes: no second text is made, and no number stored.
ghost use Rattle.std.specs.Prelude.{◌≡◌, ◌≢◌, ◌≤◌, ◌<◌, ◌^◌, ℕ, List, ◌++◌, MatchOption};
ghost use Rattle.std.specs.Fmt.{decimal};
ghost use Rattle.dpl_boxes.specs.Written.{has_no_digit};
ghost use Rattle.dpl_walks.specs.Cycles.{AreEdges, IsCycleBefore, IsDecimal, IsSpaced, IsFront};

use dpl_lex::classes::is_digit_byte;

/// What follows a front of a text, `None` where the text begins otherwise.
pub fn behind<'a>(front: &[u8], text: &'a [u8]) -> Option<&'a [u8]>
    ensures { MatchOption result ((rest : List ℕ) → text.now ≢ front.now ++ rest) (λ left.
        text.now ≡ front.now ++ left.now) }
{
    text.strip_prefix(front)
}

/// The number up to `most` that `first` and the digits at the front of a text make, and what
/// follows it.
fn number_from(most: u64, first: u64, text: &[u8]) -> Option<(u64, &[u8])>
    requires some { 0 < first }
    requires small { first ≤ most }
    requires limit { most ≤ 10 ^ 12 }
    ensures { MatchOption result
        ((n : ℕ) (rest : List ℕ) → ¬ IsDecimal most n rest (decimal first ++ text.now))
        (λ p. IsDecimal most p.0 p.1.now (decimal first ++ text.now)) }
{
    let mut value = first;
    let mut rest = text;
    'digits: while let Some((digit, others)) = rest.split_first() {
        if !is_digit_byte(*digit) {
            return Some((value, rest));
        }
        value = value * 10 + u64::from(*digit - b'0');
        if value > most {
            return None;
        }
        rest = others;
    }
    Some((value, rest))
}

/// Whether no digit stands at the front.
fn is_end(text: &[u8]) -> bool
    ensures { result ≡ has_no_digit text.now }
{
    match text.first() {
        Some(first) => !is_digit_byte(*first),
        None => true,
    }
}

/// The number up to `most` at the front of a text, and what follows it.
pub fn decimal_at(most: u64, text: &[u8]) -> Option<(u64, &[u8])>
    requires some { 9 ≤ most }
    requires limit { most ≤ 10 ^ 12 }
    ensures { MatchOption result ((n : ℕ) (rest : List ℕ) → ¬ IsDecimal most n rest text.now)
        (λ p. IsDecimal most p.0 p.1.now text.now) }
{
    let Some((first, others)) = text.split_first() else {
        return None;
    };
    if !is_digit_byte(*first) {
        return None;
    }
    if *first != b'0' {
        return number_from(most, u64::from(*first - b'0'), others);
    }
    if !is_end(others) {
        return None;
    }
    Some((0, others))
}

/// The number up to `most` behind a space at the front of a text, and what follows it.
fn number_at(most: u64, text: &[u8]) -> Option<(u64, &[u8])>
    requires some { 9 ≤ most }
    requires limit { most ≤ 10 ^ 12 }
    ensures { MatchOption result ((n : ℕ) (rest : List ℕ) → ¬ IsSpaced most n rest text.now)
        (λ p. IsSpaced most p.0 p.1.now text.now) }
{
    match text.split_first() {
        Some((b' ', digits)) => decimal_at(most, digits),
        _ => None,
    }
}

/// The number of 32 bits behind a space at the front of a text, and what follows it.
pub fn short_at(text: &[u8]) -> Option<(u32, &[u8])>
    ensures { MatchOption result ((n : ℕ) (rest : List ℕ) → ¬ IsSpaced 4294967295 n rest text.now)
        (λ p. IsSpaced 4294967295 p.0 p.1.now text.now) }
{
    match number_at(4_294_967_295, text) {
        Some((number, rest)) => Some((number as u32, rest)),
        None => None,
    }
}

/// What a cycle line has before its edges, and the text from these on.
#[derive(Drop)]
pub struct Front<'a> {
    pub half: u64,
    pub start: u32,
    pub edges: &'a [u8],
}

/// What a cycle line at the front of a text has before its edges, `None` where there is none.
pub fn front_of(text: &[u8]) -> Option<Front<'_>>
    ensures { MatchOption result ((after : List ℕ) → ¬ IsCycleBefore after text.now)
        (λ f. IsFront f.half f.start f.edges.now text.now) }
{
    let Some(rest) = behind(b"(cycle", text) else {
        return None;
    };
    let Some((half, rest)) = number_at(1_000_000_000_000, rest) else {
        return None;
    };
    if half == 0 {
        return None;
    }
    let Some((start, edges)) = short_at(rest) else {
        return None;
    };
    Some(Front { half, start, edges })
}

/// What follows some edges at the front of a text and the end of their line.
fn behind_edges(text: &[u8]) -> Option<&[u8]>
    ensures { MatchOption result ((after : List ℕ) → ¬ AreEdges after text.now)
        (λ left. AreEdges left.now text.now) }
{
    let mut rest = text;
    'edges: while let Some((_, others)) = short_at(rest) {
        rest = others;
    }
    match behind(b");\n", rest) {
        Some(left) => Some(left),
        None => None,
    }
}

/// What follows a cycle line at the front of a text, `None` where there is none.
pub fn behind_cycle(text: &[u8]) -> Option<&[u8]>
    ensures { MatchOption result ((after : List ℕ) → ¬ IsCycleBefore after text.now)
        (λ left. IsCycleBefore left.now text.now) }
{
    let Some(front) = front_of(text) else {
        return None;
    };
    let Some((_, others)) = short_at(front.edges) else {
        return None;
    };
    match behind_edges(others) {
        Some(left) => Some(left),
        None => None,
    }
}
