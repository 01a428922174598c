// The lines on the standard output.
ghost use Rattle.std.specs.Prelude.{◌≡◌, ◌++◌, Some, OnOk, IfOk, codes, decimal};
ghost use Rattle.dpl_run.specs.Lines as lines;

use dpl_euler::types::{Bar, Crossing, With};
use itoa::Buffer;
use std::alloc::{AllocError, Global};

/// What is told of a made layout.
#[derive(Clone, Copy, Debug)]
pub struct Told {
    pub fragments: u64,
    pub edges: u64,
    pub cost: u64,
    pub bound: u64,
    pub aside: u64,
}

/// The line that tells a good report's cost and bound.
pub fn yes_line(alloc: Global, cost: u64, bound: u64) -> Result<Vec<u8>, AllocError>
    ensures { IfOk result (λ v. v.items ≡ lines.yes_line cost bound) }
{
    let mut out = Vec::new(alloc);
    push_named(&mut out, b"yes cost ", cost)?;
    push_named(&mut out, b" bound ", bound)?;
    out.extend_from_slice(b"\n")?;
    Ok(out)
}

/// The line that tells the split of a made layout.
pub fn load_line(alloc: Global, told: Told) -> Result<Vec<u8>, AllocError>
    ensures { IfOk result (λ v.
        v.items ≡ lines.load_line told.fragments told.edges told.cost told.bound told.aside) }
{
    let mut out = Vec::new(alloc);
    push_named(&mut out, b"fragments ", told.fragments)?;
    push_named(&mut out, b" edges ", told.edges)?;
    push_named(&mut out, b" cost ", told.cost)?;
    push_named(&mut out, b" bound ", told.bound)?;
    push_named(&mut out, b" aside ", told.aside)?;
    out.extend_from_slice(b"\n")?;
    Ok(out)
}

fn push_named(out: &mut Vec<u8>, name: &[u8], number: u64) -> Result<(), AllocError>
    ensures { OnOk result (out.new.items ≡ out.old.items ++ name.now ++ decimal number) }
{
    let mut buffer = Buffer::new();
    out.extend_from_slice(name)?;
    out.extend_from_slice(buffer.format(number).as_bytes())?;
    Ok(())
}

/// The lines that tell the excess, a crossing and a bar of a drawing.
pub fn cross_lines(
    alloc: Global,
    excess: u64,
    crossing: &Option<Crossing>,
    bar: &Option<Bar>,
) -> Result<Vec<u8>, AllocError>
    ensures { IfOk result (λ v. v.items ≡ lines.cross_lines excess crossing.now bar.now) }
{
    let mut out = Vec::new(alloc);
    push_excess(&mut out, excess, crossing)?;
    push_bar(&mut out, bar)?;
    Ok(out)
}

fn push_excess(
    out: &mut Vec<u8>,
    excess: u64,
    crossing: &Option<Crossing>,
) -> Result<(), AllocError>
    ensures { OnOk result (out.new.items ≡ out.old.items ++ lines.excess_line excess crossing.now) }
{
    push_named(out, b"excess ", excess)?;
    match crossing {
        Some(crossing) => push_crossing(out, crossing),
        None => out.extend_from_slice(b" none\n"),
    }
}

fn push_crossing(out: &mut Vec<u8>, crossing: &Crossing) -> Result<(), AllocError>
    ensures { OnOk result (out.new.items ≡ out.old.items
        ++ lines.crossing_text crossing.now.edge crossing.now.other ++ codes "\n") }
{
    match crossing.other {
        With::Link(other) => push_pair(out, b" link ", crossing.edge, other)?,
        With::Fragment(other) => push_pair(out, b" fragment ", crossing.edge, other)?,
    }
    out.extend_from_slice(b"\n")
}

fn push_pair(out: &mut Vec<u8>, name: &[u8], edge: u32, other: u32) -> Result<(), AllocError>
    ensures { OnOk result (out.new.items ≡ out.old.items ++ (name.now ++ decimal edge
        ++ codes " " ++ decimal other)) }
{
    push_named(out, name, u64::from(edge))?;
    push_named(out, b" ", u64::from(other))?;
    Ok(())
}

fn push_bar(out: &mut Vec<u8>, bar: &Option<Bar>) -> Result<(), AllocError>
    ensures { OnOk result (out.new.items ≡ out.old.items ++ lines.bar_line bar.now) }
{
    match bar {
        Some(bar) => push_some_bar(out, bar),
        None => Ok(()),
    }
}

fn push_some_bar(out: &mut Vec<u8>, bar: &Bar) -> Result<(), AllocError>
    ensures { OnOk result (out.new.items ≡ out.old.items ++ lines.bar_line (Some bar.now)) }
{
    push_named(out, b"bar ", u64::from(bar.edge))?;
    out.extend_from_slice(b" face")?;
    push_numbers(out, bar.face.as_slice())?;
    out.extend_from_slice(b" walk")?;
    push_numbers(out, bar.walk.as_slice())?;
    out.extend_from_slice(b"\n")?;
    Ok(())
}

/// Each number behind a blank.
fn push_numbers(out: &mut Vec<u8>, numbers: &[u32]) -> Result<(), AllocError>
    ensures { OnOk result (out.new.items ≡ out.old.items ++ lines.numbers_text numbers.now) }
{
    let mut rest = numbers;
    while let Some((number, others)) = rest.split_first() {
        push_named(out, b" ", u64::from(*number))?;
        rest = others;
    }
    Ok(())
}
