// The forms of a command.
ghost use Rattle.std.specs.Prelude.{◌≡◌, ◌≤◌, ◌<◌, ◌^◌, List, length, IfOk};
ghost use Rattle.std.specs.List.{prefix_len};
ghost use Rattle.dpl_lex.specs.Classes.{is_name_byte};
ghost use Rattle.dpl_rules.specs.Forms as forms;
ghost use Rattle.dpl_rules.specs.Readers.{Reads, repeated};

use crate::command::{BoxForm, Command, Scale, Spot, Transformation};
use crate::readers::{complete, letter, spot, spots, unsigned};
use dpl_lex::Name;
use dpl_lex::classes::{is_name_byte, skip_blanks};
use dpl_list::Items;
use std::alloc::{AllocError, Global};

fn polygon(alloc: Global, bytes: &[u8]) -> Result<Option<Command>, AllocError>
    ensures { IfOk result (λ r. r ≡ forms.polygon_of bytes.now) }
{
    let (spots, rest) = spots(alloc, bytes)?;
    if spots.is_empty() {
        return Ok(None);
    }
    Ok(complete(Command::Polygon(Items::new(spots)), rest))
}

fn wire(alloc: Global, bytes: &[u8]) -> Result<Option<Command>, AllocError>
    ensures { IfOk result (λ r. r ≡ forms.wire_of bytes.now) }
{
    let Some((width, rest)) = unsigned(bytes) else {
        return Ok(None);
    };
    let (spots, rest) = spots(alloc, rest)?;
    if spots.is_empty() {
        return Ok(None);
    }
    Ok(complete(Command::Wire(width, Items::new(spots)), rest))
}

fn box_form(bytes: &[u8]) -> Option<Command>
    ensures { result ≡ forms.box_of bytes.now }
{
    let (length, rest) = unsigned(bytes)?;
    let (width, rest) = unsigned(rest)?;
    let (centre, rest) = spot(rest)?;
    let (direction, rest) = spot(rest).unwrap_or((Spot { x: 1, y: 0 }, rest));
    complete(
        Command::Box(BoxForm {
            length,
            width,
            centre,
            direction,
        }),
        rest,
    )
}

fn flash(bytes: &[u8]) -> Option<Command>
    ensures { result ≡ forms.flash_of bytes.now }
{
    let (diameter, rest) = unsigned(bytes)?;
    let (centre, rest) = spot(rest)?;
    complete(Command::Flash(diameter, centre), rest)
}

/// How many bytes of a name stand at the front.
fn name_length(bytes: &[u8]) -> usize
    ensures value { result ≡ prefix_len is_name_byte bytes.now }
    ensures within { result ≤ length bytes.now }
{
    bytes.iter().take_while(|b| is_name_byte(**b)).count()
}

fn layer(bytes: &[u8]) -> Option<Command>
    ensures { result ≡ forms.layer_command bytes.now }
{
    let rest = skip_blanks(bytes);
    let count = name_length(rest);
    let name = Name::new(&rest[..count])?;
    complete(Command::Layer(name), &rest[count..])
}

fn shift(bytes: &[u8]) -> Option<(Transformation, &[u8])>
    ensures { Reads (λ r. (r.0, r.1.now)) result (forms.shift_of bytes.now) }
{
    let rest = letter(b'T', bytes)?;
    let (by, rest) = spot(rest)?;
    Some((Transformation::Shift(by), rest))
}

fn mirror_x(bytes: &[u8]) -> Option<(Transformation, &[u8])>
    ensures { Reads (λ r. (r.0, r.1.now)) result (forms.mirror_x_of bytes.now) }
{
    let rest = letter(b'M', bytes)?;
    let rest = letter(b'X', rest)?;
    Some((Transformation::MirrorX, rest))
}

fn mirror_y(bytes: &[u8]) -> Option<(Transformation, &[u8])>
    ensures { Reads (λ r. (r.0, r.1.now)) result (forms.mirror_y_of bytes.now) }
{
    let rest = letter(b'M', bytes)?;
    let rest = letter(b'Y', rest)?;
    Some((Transformation::MirrorY, rest))
}

fn rotate(bytes: &[u8]) -> Option<(Transformation, &[u8])>
    ensures { Reads (λ r. (r.0, r.1.now)) result (forms.rotate_of bytes.now) }
{
    let rest = letter(b'R', bytes)?;
    let (to, rest) = spot(rest)?;
    Some((Transformation::Rotate(to), rest))
}

fn transformation(bytes: &[u8]) -> Option<(Transformation, &[u8])>
    ensures { Reads (λ r. (r.0, r.1.now)) result (forms.transformation_of bytes.now) }
{
    if let Some(found) = shift(bytes) {
        return Some(found);
    }
    if let Some(found) = mirror_x(bytes) {
        return Some(found);
    }
    if let Some(found) = mirror_y(bytes) {
        return Some(found);
    }
    rotate(bytes)
}

/// As many transformations as stand one after another.
#[tactic(auto, using(crate::proofs::Repeated::repeated_step, crate::proofs::Repeated::repeated_stop, crate::proofs::Repeated::repeated_none))]
fn transformations(alloc: Global, bytes: &[u8]) -> Result<(Vec<Transformation>, &[u8]), AllocError>
    ensures { IfOk result (λ r. (r.0.items, r.1.now)
        ≡ repeated forms.transformation_of (length bytes.now) bytes.now) }
{
    let mut found = Vec::new(alloc);
    let mut rest = bytes;
    for _turn in 0..bytes.len() {
        let Some((next, others)) = transformation(rest) else {
            return Ok((found, rest));
        };
        found.push(next)?;
        rest = others;
    }
    Ok((found, rest))
}

fn call(alloc: Global, bytes: &[u8]) -> Result<Option<Command>, AllocError>
    ensures { IfOk result (λ r. r ≡ forms.call_of bytes.now) }
{
    let Some((number, rest)) = unsigned(bytes) else {
        return Ok(None);
    };
    let (found, rest) = transformations(alloc, rest)?;
    Ok(complete(Command::Call(number, Items::new(found)), rest))
}

fn ratio(bytes: &[u8]) -> Option<(Scale, &[u8])>
    ensures { Reads (λ r. (r.0, r.1.now)) result (forms.ratio_of bytes.now) }
{
    let (times, rest) = unsigned(bytes)?;
    let (over, rest) = unsigned(rest)?;
    Some((Scale { times, over }, rest))
}

fn start(bytes: &[u8]) -> Option<Command>
    ensures { result ≡ forms.start_command bytes.now }
{
    let (number, rest) = unsigned(bytes)?;
    let (scale, rest) = ratio(rest).unwrap_or((Scale { times: 1, over: 1 }, rest));
    complete(Command::Start(number, scale), rest)
}

fn delete(bytes: &[u8]) -> Option<Command>
    ensures { result ≡ forms.delete_of bytes.now }
{
    let (number, rest) = unsigned(bytes)?;
    complete(Command::Delete(number), rest)
}

fn definition(bytes: &[u8]) -> Option<Command>
    ensures { result ≡ forms.definition_of bytes.now }
{
    if let Some(rest) = letter(b'S', bytes) {
        return start(rest);
    }
    if let Some(rest) = letter(b'F', bytes) {
        return complete(Command::Finish, rest);
    }
    delete(letter(b'D', bytes)?)
}

fn comment(bytes: &[u8]) -> Option<Command>
    requires { length bytes.now < 2 ^ 32 }
    ensures { result ≡ forms.comment_of 0 bytes.now }
{
    let mut depth = 0u32;
    let mut rest = bytes;
    'bytes: while let Some((first, others)) = rest.split_first() {
        rest = others;
        if *first == b'(' {
            depth += 1;
        } else if *first == b')' {
            if depth == 0 {
                return complete(Command::Idle, rest);
            }
            depth -= 1;
        }
    }
    None
}

/// The form of these bytes, where they have one.
pub fn form(alloc: Global, bytes: &[u8]) -> Result<Option<Command>, AllocError>
    requires { length bytes.now < 2 ^ 32 }
    ensures { IfOk result (λ r. r ≡ forms.form_of bytes.now) }
{
    let Some((first, rest)) = bytes.split_first() else {
        return Ok(Some(Command::Idle));
    };
    match *first {
        b'0'..=b'9' => Ok(Some(Command::Idle)),
        b'(' => Ok(comment(rest)),
        b'P' => polygon(alloc, rest),
        b'B' => Ok(box_form(rest)),
        b'W' => wire(alloc, rest),
        b'R' => Ok(flash(rest)),
        b'L' => Ok(layer(rest)),
        b'D' => Ok(definition(rest)),
        b'C' => call(alloc, rest),
        _ => Ok(None),
    }
}
