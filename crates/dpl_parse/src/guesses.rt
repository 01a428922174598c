// What the numbers of a line make.
ghost use Rattle.std.specs.Prelude.{◌≡◌, ◌<◌, ◌^◌, pos, ◌+ℤ◌, ◌-ℤ◌, ◌*ℤ◌, unsigned_abs, int_div};
ghost use Rattle.dpl_cell.specs.Places.{corners_of};
ghost use Rattle.dpl_rules.specs.Readers.{Reads};
ghost use Rattle.dpl_report.specs.Reading as reading;

use dpl_cell::Rect;

/// The count that these numbers make: there is one, from 0 to 1,000,000,000,000.
pub fn count_from(numbers: &[i64]) -> Option<u64>
    ensures { result ≡ reading.count_from numbers.now }
{
    match numbers {
        [number] => {
            if *number < 0 || *number > 1_000_000_000_000 {
                return None;
            }
            Some(*number as u64)
        }
        _ => None,
    }
}

#[tactic(auto, unfolding(dpl_report::specs::Reading::rectangle_of))]
fn rectangle_of(x1: i64, y1: i64, x2: i64, y2: i64) -> Option<Rect>
    ensures { Reads corners_of result (reading.rectangle_of (record {
      x1 = x1;
      y1 = y1;
      x2 =
          x2;
      y2 = y2;
    })) }
{
    Rect::new(x1, y1, x2, y2)
}

/// Four times the corner on the low side.
fn less(middle: i64, length: i64) -> i128
    ensures value { result ≡ (middle *ℤ pos 2) -ℤ length }
    ensures small { unsigned_abs result < 2 ^ 65 }
{
    let double = i128::from(middle) * 2;
    double - i128::from(length)
}

/// Four times the corner on the high side.
fn more(middle: i64, length: i64) -> i128
    ensures value { result ≡ (middle *ℤ pos 2) +ℤ length }
    ensures small { unsigned_abs result < 2 ^ 65 }
{
    let double = i128::from(middle) * 2;
    double + i128::from(length)
}

fn quarter(n: i128) -> i64
    requires { unsigned_abs n < 2 ^ 65 }
    ensures { result ≡ int_div n (pos 4) }
{
    let quarter = n / 4;
    quarter as i64
}

/// The rectangle in grid units that a length, a width and a centre make, in quarters of a hundredth
/// of a micron, `None` where the corners hold no cell or are out of range.
pub fn box_by(length: i64, width: i64, x: i64, y: i64) -> Option<Rect>
    ensures { Reads corners_of result (reading.box_by length width x y) }
{
    let x1 = quarter(less(x, length));
    let y1 = quarter(less(y, width));
    let x2 = quarter(more(x, length));
    let y2 = quarter(more(y, width));
    rectangle_of(x1, y1, x2, y2)
}
