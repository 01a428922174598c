// The curve of Morton through the plane, along which items near one another come together.
use crate::bounds::Bounds;

/// By how many bits columns and rows are coarser on the curve than in the plane, so that most items are about as wide as
/// high on it: long ones that lie side by side come together however their lengths differ.
#[derive(Clone, Copy, Debug)]
pub struct Grain {
    columns: u32,
    rows: u32,
}

/// The grain for these items: that of the longer side is what it is longer by.
pub fn grain_of(items: &[Bounds]) -> Grain {
    let mut width: u64 = 0;
    let mut height: u64 = 0;
    for item in items {
        width = width.wrapping_add(length(item.left, item.right));
        height = height.wrapping_add(length(item.low, item.high));
    }
    let (wide, high) = (bits(width), bits(height));
    Grain {
        columns: wide.saturating_sub(high),
        rows: high.saturating_sub(wide),
    }
}

/// How far it is from one end of a range to the other.
fn length(a: i64, b: i64) -> u64 {
    b.wrapping_sub(a).unsigned_abs()
}

/// How many bits a number has.
fn bits(number: u64) -> u32 {
    64u32.saturating_sub(number.leading_zeros())
}

/// The place of the middle of bounds on the curve of Morton: the bits of its column and of its row by turns. Places that
/// agree in their first bits lie in one square, or in one half of it.
pub fn place_of(grain: Grain, bounds: &Bounds) -> u64 {
    let column = middle(bounds.left, bounds.right).wrapping_shr(grain.columns);
    let row = middle(bounds.low, bounds.high).wrapping_shr(grain.rows);
    spread(column).wrapping_mul(2) | spread(row)
}

/// The middle of a range, moved so that it is not below 0.
fn middle(a: i64, b: i64) -> u64 {
    a.wrapping_add(b).wrapping_add(1 << 31).unsigned_abs()
}

/// The last 32 bits of a number, with a bit between each two of them.
fn spread(number: u64) -> u64 {
    let mut bits = number & 0xffff_ffff;
    bits = (bits | bits << 16) & 0x0000_ffff_0000_ffff;
    bits = (bits | bits << 8) & 0x00ff_00ff_00ff_00ff;
    bits = (bits | bits << 4) & 0x0f0f_0f0f_0f0f_0f0f;
    bits = (bits | bits << 2) & 0x3333_3333_3333_3333;
    (bits | bits << 1) & 0x5555_5555_5555_5555
}
