// Lines of one edge each, read.
ghost use Rattle.std.specs.Prelude.{◌≡◌, ◌↔◌, true, ℕ, None, codes, MatchOption};
ghost use Rattle.dpl_cell.specs.Places.{corners_of};
ghost use Rattle.dpl_cell.specs.Ranges.{IsRectangle};
ghost use Rattle.dpl_report.specs.Plain.{plain_zone};
ghost use Rattle.dpl_report.specs.Reading as reading;
ghost use Rattle.dpl_report.specs.Reading.{from_edge};

use crate::standing::{ends_at, pair_at};
use dpl_cell::Rect;
use dpl_report::{Broken, Zone};
use dpl_walks::{behind, short_at};

/// Whether this is the end of a comment's line.
fn is_closing(text: &[u8]) -> bool
    ensures { (result ≡ true) ↔ (text.now ≡ codes ");\n") }
{
    matches!(text, [b')', b';', b'\n'])
}

/// The edge in an aside line, `None` where the line is none.
pub fn aside_in(line: &[u8]) -> Option<u32>
    ensures { MatchOption result
        ((least : ℕ) → reading.item_aside least line.now ≡ None)
        (λ e. (least : ℕ) → reading.item_aside least line.now ≡ from_edge least e e) }
{
    let Some(rest) = behind(b"(aside", line) else {
        return None;
    };
    let Some((edge, rest)) = short_at(rest) else {
        return None;
    };
    if !is_closing(rest) {
        return None;
    }
    Some(edge)
}

/// The edge with its two ends in a clash line, `None` where the line is none.
pub fn clash_in(line: &[u8]) -> Option<Broken>
    ensures { MatchOption result
        ((least : ℕ) → reading.item_clash least line.now ≡ None)
        (λ b. (least : ℕ) → reading.item_clash least line.now ≡ from_edge least b.edge b) }
{
    let Some(rest) = behind(b"(clash", line) else {
        return None;
    };
    let Some((clash, rest)) = ends_at(rest) else {
        return None;
    };
    if !is_closing(rest) {
        return None;
    }
    Some(clash)
}

/// The rectangle between two corners, `None` where it holds no cell or is out of range.
fn between(low: (i64, i64), high: (i64, i64)) -> Option<Rect>
    ensures { MatchOption result
        (¬ IsRectangle (record { x1 = low.0; y1 = low.1; x2 = high.0; y2 = high.1 }))
        (λ r. IsRectangle (corners_of r)
        × (corners_of r ≡ record { x1 = low.0; y1 = low.1; x2 = high.0; y2 = high.1 })) }
{
    match Rect::new(low.0, low.1, high.0, high.1) {
        Some(rect) => Some(rect),
        None => None,
    }
}

/// The edge with its two ends and its zone in a cut line, `None` where the line is none.
pub fn cut_in(line: &[u8]) -> Option<Zone>
    ensures { MatchOption result
        ((least : ℕ) → reading.item_cut least line.now ≡ None)
        (λ z. (least : ℕ) → reading.item_cut least line.now ≡ from_edge least z.at.edge (plain_zone z)) }
{
    let Some(rest) = behind(b"(cut", line) else {
        return None;
    };
    let Some((at, rest)) = ends_at(rest) else {
        return None;
    };
    let Some((low, rest)) = pair_at(rest) else {
        return None;
    };
    let Some((high, rest)) = pair_at(rest) else {
        return None;
    };
    if !is_closing(rest) {
        return None;
    }
    let Some(rect) = between(low, high) else {
        return None;
    };
    Some(Zone { at, rect })
}
