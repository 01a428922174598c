// Numbers of a line, read where they stand and as they are written: nothing is stored.
ghost use Rattle.std.specs.Prelude.{◌≡◌, ℕ, ℤ, List, [], ◌∷◌, MatchOption};
ghost use Rattle.dpl_parse.specs.Standing.{Stand, IsSigned};
ghost use Rattle.dpl_report.specs.ReportLines.{broken_numbers};
ghost use Rattle.dpl_report.specs.Valid.{IsBroken};

use dpl_report::Broken;
use dpl_walks::{decimal_at, short_at};

const GREATEST: u64 = 1_000_000_000_000;

/// The integer behind a minus, whose digits these are, and what follows it.
fn negative_at(digits: &[u8]) -> Option<(i64, &[u8])>
    ensures { MatchOption result
        ((z : ℤ) (rest : List ℕ) → ¬ IsSigned z rest (45 ∷ digits.now))
        (λ p. IsSigned p.0 p.1.now (45 ∷ digits.now)) }
{
    match decimal_at(GREATEST, digits) {
        None => None,
        Some((number, rest)) => {
            if number == 0 {
                return None;
            }
            Some((-(number as i64), rest))
        }
    }
}

/// The integer at the front of a text, and what follows it.
fn signed_at(text: &[u8]) -> Option<(i64, &[u8])>
    ensures { MatchOption result ((z : ℤ) (rest : List ℕ) → ¬ IsSigned z rest text.now)
        (λ p. IsSigned p.0 p.1.now text.now) }
{
    match text.split_first() {
        Some((b'-', digits)) => negative_at(digits),
        _ => match decimal_at(GREATEST, text) {
            Some((number, rest)) => Some((number as i64, rest)),
            None => None,
        },
    }
}

/// The integer behind a space at the front of a text, and what follows it.
fn integer_at(text: &[u8]) -> Option<(i64, &[u8])>
    ensures { MatchOption result ((z : ℤ) (rest : List ℕ) → ¬ Stand (z ∷ []) rest text.now)
        (λ p. Stand (p.0 ∷ []) p.1.now text.now) }
{
    match text.split_first() {
        Some((b' ', digits)) => signed_at(digits),
        _ => None,
    }
}

/// Two integers at the front of a text, each behind a space, and what follows them.
pub fn pair_at(text: &[u8]) -> Option<((i64, i64), &[u8])>
    ensures { MatchOption result
        ((a b : ℤ) (rest : List ℕ) → ¬ Stand (a ∷ b ∷ []) rest text.now)
        (λ p. Stand (p.0.0 ∷ p.0.1 ∷ []) p.1.now text.now) }
{
    let Some((first, rest)) = integer_at(text) else {
        return None;
    };
    let Some((second, rest)) = integer_at(rest) else {
        return None;
    };
    Some(((first, second), rest))
}

/// An edge with its two ends at the front of a text, each number behind a space, and what follows
/// them.
pub fn ends_at(text: &[u8]) -> Option<(Broken, &[u8])>
    ensures { MatchOption result
        ((b : Broken) (rest : List ℕ) → IsBroken b → ¬ Stand (broken_numbers b) rest text.now)
        (λ p. IsBroken p.0 × Stand (broken_numbers p.0) p.1.now text.now) }
{
    let Some((edge, rest)) = short_at(text) else {
        return None;
    };
    let Some((a, rest)) = short_at(rest) else {
        return None;
    };
    let Some((b, rest)) = short_at(rest) else {
        return None;
    };
    Some((Broken { edge, a, b }, rest))
}
