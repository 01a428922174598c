//! The lines of a report, written. Each function puts its line behind what is there.
ghost use Rattle.std.specs.Prelude.{◌≡◌, ◌++◌, ◌∷◌, [], pos, map, codes, OnOk};
ghost use Rattle.dpl_report.specs.Plain.{plain_zone};
ghost use Rattle.dpl_report.specs.ReportLines.{numbered, broken_numbers, count_line, layer_line, keep_line, version_line as the_version_line, masks_line, mask_letter, cut_line, clash_line, aside_line, cycle_line, mask_line};

use crate::marks::{Broken, Zone};
use dpl_boxes::push_spaced;
use dpl_cell::Rect;
use dpl_sign::Cycle;
use itoa::Buffer;
use std::alloc::AllocError as NoMemory;

fn push_numbers(out: &mut Vec<u8>, numbers: &[i64], end: &[u8]) -> Result<(), NoMemory>
    ensures { OnOk result (out.new.items ≡ out.old.items ++ numbered numbers.now end.now) }
{
    for number in numbers {
        push_spaced(out, *number)?;
    }
    out.extend_from_slice(end)
}

fn push_edges(out: &mut Vec<u8>, edges: &[u32], end: &[u8]) -> Result<(), NoMemory>
    ensures { OnOk result (out.new.items ≡ out.old.items ++ numbered (map pos edges.now) end.now) }
{
    for edge in edges {
        push_spaced(out, i64::from(*edge))?;
    }
    out.extend_from_slice(end)
}

/// A line with a number behind a word.
pub fn push_count(out: &mut Vec<u8>, word: &[u8], number: u64) -> Result<(), NoMemory>
    ensures { OnOk result (out.new.items ≡ out.old.items ++ count_line word.now number) }
{
    let mut buffer = Buffer::new();
    out.extend_from_slice(b"(")?;
    out.extend_from_slice(word)?;
    out.extend_from_slice(b" ")?;
    out.extend_from_slice(buffer.format(number).as_bytes())?;
    out.extend_from_slice(b");\n")
}

/// The line that names the layer.
pub fn push_layer(out: &mut Vec<u8>, name: &[u8]) -> Result<(), NoMemory>
    ensures { OnOk result (out.new.items ≡ out.old.items ++ layer_line name.now) }
{
    out.extend_from_slice(b"(layer ")?;
    out.extend_from_slice(name)?;
    out.extend_from_slice(b");\n")
}

/// The line that names the keep layer.
pub fn push_keep(out: &mut Vec<u8>, name: &[u8]) -> Result<(), NoMemory>
    ensures { OnOk result (out.new.items ≡ out.old.items ++ keep_line name.now) }
{
    out.extend_from_slice(b"(keep ")?;
    out.extend_from_slice(name)?;
    out.extend_from_slice(b");\n")
}

/// The first line, by the version.
pub fn version_line(second: bool) -> &'static [u8]
    ensures { result.now ≡ the_version_line second }
{
    if second { b"(dpl 2);\n" } else { b"(dpl 1);\n" }
}

fn letter_of(on_b: bool) -> u8
    ensures { result ≡ mask_letter on_b }
{
    if on_b { b'B' } else { b'A' }
}

fn push_letters(out: &mut Vec<u8>, colours: &[bool]) -> Result<(), NoMemory>
    ensures { OnOk result (out.new.items ≡ out.old.items ++ map mask_letter colours.now) }
{
    for colour in colours {
        out.push(letter_of(*colour))?;
    }
    Ok(())
}

/// The line with the mask of each fragment.
pub fn push_masks(out: &mut Vec<u8>, colours: &[bool]) -> Result<(), NoMemory>
    ensures { OnOk result (out.new.items ≡ out.old.items ++ masks_line colours.now) }
{
    out.extend_from_slice(b"(masks ")?;
    push_letters(out, colours)?;
    out.extend_from_slice(b");\n")
}

fn push_ends(out: &mut Vec<u8>, b: &Broken, end: &[u8]) -> Result<(), NoMemory>
    ensures { OnOk result (out.new.items ≡ out.old.items
        ++ numbered (broken_numbers b.now) end.now) }
{
    let numbers = [i64::from(b.edge), i64::from(b.a), i64::from(b.b)];
    push_numbers(out, &numbers, end)
}

fn push_corners(out: &mut Vec<u8>, r: &Rect, end: &[u8]) -> Result<(), NoMemory>
    ensures { OnOk result (out.new.items ≡ out.old.items
        ++ numbered (r.now.x1 ∷ r.now.y1 ∷ r.now.x2 ∷ r.now.y2 ∷ []) end.now) }
{
    push_numbers(out, &[r.x1, r.y1, r.x2, r.y2], end)
}

/// The line of a broken stitch and its zone, in grid units.
pub fn push_cut(out: &mut Vec<u8>, z: &Zone) -> Result<(), NoMemory>
    ensures { OnOk result (out.new.items ≡ out.old.items ++ cut_line (plain_zone z.now)) }
{
    out.extend_from_slice(b"(cut")?;
    push_ends(out, &z.at, b"")?;
    push_corners(out, &z.rect, b");\n")
}

/// The line of a broken clash.
pub fn push_clash(out: &mut Vec<u8>, b: &Broken) -> Result<(), NoMemory>
    ensures { OnOk result (out.new.items ≡ out.old.items ++ clash_line b.now) }
{
    out.extend_from_slice(b"(clash")?;
    push_ends(out, b, b");\n")
}

/// The line of an edge that is set aside.
pub fn push_aside(out: &mut Vec<u8>, edge: u32) -> Result<(), NoMemory>
    ensures { OnOk result (out.new.items ≡ out.old.items ++ aside_line edge) }
{
    out.extend_from_slice(b"(aside")?;
    push_numbers(out, &[i64::from(edge)], b");\n")
}

/// The line of a closed walk with its half weight.
pub fn push_cycle(out: &mut Vec<u8>, c: &Cycle) -> Result<(), NoMemory>
    ensures { OnOk result (out.new.items ≡ out.old.items ++ cycle_line c.now) }
{
    let mut buffer = Buffer::new();
    out.extend_from_slice(b"(cycle ")?;
    out.extend_from_slice(buffer.format(c.half).as_bytes())?;
    push_spaced(out, i64::from(c.walk.start))?;
    push_edges(out, c.walk.edges.as_slice(), b");\n")
}

/// The line that begins the boxes of a mask.
pub fn push_mask(out: &mut Vec<u8>, name: &[u8], mask: u8) -> Result<(), NoMemory>
    ensures { OnOk result (out.new.items ≡ out.old.items ++ mask_line name.now mask) }
{
    out.extend_from_slice(b"L ")?;
    out.extend_from_slice(name)?;
    out.push(mask)?;
    out.extend_from_slice(b";\n")
}
