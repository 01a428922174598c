// The line of a box.
ghost use Rattle.std.specs.Prelude.{◌≡◌, pos, ◌+ℤ◌, ◌-ℤ◌, ◌*ℤ◌, ◌++◌, OnOk};
ghost use Rattle.dpl_cell.specs.Places.{corners_of};
ghost use Rattle.dpl_boxes.specs.Masks.{box_line, spaced};

use dpl_cell::Rect;
use itoa::Buffer;
use std::alloc::AllocError as NoMemory;

/// A number behind a space.
pub fn push_spaced(out: &mut Vec<u8>, number: i64) -> Result<(), NoMemory>
    ensures { OnOk result (out.new.items ≡ out.old.items ++ spaced number) }
{
    let mut buffer = Buffer::new();
    out.extend_from_slice(b" ")?;
    out.extend_from_slice(buffer.format(number).as_bytes())
}

/// A rectangle as a box of a CIF text in quarters of a hundredth of a micron; a grid unit is two of them.
pub fn push_box(out: &mut Vec<u8>, r: &Rect) -> Result<(), NoMemory>
    ensures { OnOk result (out.new.items ≡ out.old.items ++ box_line (corners_of r.now)) }
{
    let numbers = numbers_of(r);
    out.extend_from_slice(b"B")?;
    push_spaced(out, numbers.length)?;
    push_spaced(out, numbers.width)?;
    push_spaced(out, numbers.x)?;
    push_spaced(out, numbers.y)?;
    out.extend_from_slice(b";\n")?;
    Ok(())
}

/// A box by its length, its width and its middle, in quarters of a hundredth of a micron.
#[derive(Clone, Copy, Debug)]
struct Drawn {
    length: i64,
    width: i64,
    x: i64,
    y: i64,
}

fn numbers_of(r: &Rect) -> Drawn
    ensures length { result.length ≡ (r.now.x2 -ℤ r.now.x1) *ℤ pos 2 }
    ensures width { result.width ≡ (r.now.y2 -ℤ r.now.y1) *ℤ pos 2 }
    ensures x { result.x ≡ r.now.x1 +ℤ r.now.x2 }
    ensures y { result.y ≡ r.now.y1 +ℤ r.now.y2 }
{
    Drawn {
        length: (r.x2 - r.x1) * 2,
        width: (r.y2 - r.y1) * 2,
        x: r.x1 + r.x2,
        y: r.y1 + r.y2,
    }
}
