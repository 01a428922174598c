// A box line, read.
ghost use Rattle.std.specs.Prelude.{◌≡◌, ◌↔◌, ◌≤◌, ◌^◌, ℤ, true, pos, ◌+ℤ◌, ◌-ℤ◌, ◌*ℤ◌, unsigned_abs, ◌∷◌, [], codes, MatchOption};
ghost use Rattle.dpl_cell.specs.Places.{corners_of};
ghost use Rattle.dpl_rules.specs.Readers.{Reads};
ghost use Rattle.dpl_report.specs.Reading as reading;
ghost use Rattle.dpl_parse.specs.Standing.{IsBoxLine};

use crate::guesses::box_by;
use crate::standing::pair_at;
use dpl_cell::Rect;
use dpl_walks::behind;

/// The numbers of a box line: length and width, and the middle.
#[derive(Drop)]
struct Drawn {
    sides: (i64, i64),
    middle: (i64, i64),
}

/// Whether this is the end of a box line.
fn is_end(text: &[u8]) -> bool
    ensures { (result ≡ true) ↔ (text.now ≡ codes ";\n") }
{
    matches!(text, [b';', b'\n'])
}

/// The numbers of a line that is that of a box but for what they make.
fn drawn_in(line: &[u8]) -> Option<Drawn>
    ensures { MatchOption result
        ((a b c d : ℤ) → ¬ IsBoxLine (a ∷ b ∷ c ∷ d ∷ []) line.now)
        (λ d. IsBoxLine (d.sides.0 ∷ d.sides.1 ∷ d.middle.0 ∷ d.middle.1 ∷ []) line.now) }
{
    let Some(rest) = behind(b"B", line) else {
        return None;
    };
    let Some((sides, rest)) = pair_at(rest) else {
        return None;
    };
    let Some((middle, rest)) = pair_at(rest) else {
        return None;
    };
    if !is_end(rest) {
        return None;
    }
    Some(Drawn { sides, middle })
}

/// Whether a side from one coordinate to another is drawn by this length and this middle.
fn is_drawn_by(from: i64, to: i64, length: i64, middle: i64) -> bool
    requires from { unsigned_abs from ≤ 2 ^ 30 }
    requires to { unsigned_abs to ≤ 2 ^ 30 }
    ensures { (result ≡ true) ↔ (((to -ℤ from) *ℤ pos 2 ≡ length) × (from +ℤ to ≡ middle)) }
{
    if (to - from) * 2 != length {
        return false;
    }
    if from + to != middle {
        return false;
    }
    true
}

/// The rectangle of a box line, in grid units, `None` where the line is none.
pub fn box_in(line: &[u8]) -> Option<Rect>
    ensures { Reads corners_of result (reading.item_box line.now) }
{
    let Some(drawn) = drawn_in(line) else {
        return None;
    };
    let (length, width) = drawn.sides;
    let (x, y) = drawn.middle;
    let Some(rect) = box_by(length, width, x, y) else {
        return None;
    };
    if !is_drawn_by(rect.x1, rect.x2, length, x) {
        return None;
    }
    if !is_drawn_by(rect.y1, rect.y2, width, y) {
        return None;
    }
    Some(rect)
}
