// The line on the error output.
ghost use Rattle.std.specs.Prelude.{◌≡◌, ◌+◌, ◌≤◌, ℕ, List, [], ◌++◌, length, decimal};
ghost use Rattle.std.specs.Fmt.{signed_decimal};
ghost use Rattle.dpl_run.specs.Lines.{line_of, what_number};

use crate::status::Status;
use dpl_cif::What;
use itoa::Buffer;
use std::marker::Model;

/// A short text in a fixed array.
#[derive(Drop)]
pub struct Line {
    bytes: [u8; 256],
    count: usize,
}

impl Model for Line {
    ghost use Rattle.std.specs.Prelude.{List, ℕ, take, ◌≤◌};

    ghost Value = { List ℕ };

    ghost view = { λ s. take s.count s.bytes };

    ghost invariant = { λ s. s.count ≤ 256 };
}

impl Line {
    /// The empty text.
    pub fn new() -> Line
        ensures { result ≡ [] }
    {
        Line {
            bytes: [0; 256],
            count: 0,
        }
    }

    /// Puts a piece behind the text. Both together have at most 256 bytes.
    pub fn push(&mut self, piece: &[u8])
        requires { length self.old + length piece.now ≤ 256 }
        ensures { self.new ≡ self.old ++ piece.now }
    {
        let end = self.count + piece.len();
        self.bytes[self.count..end].copy_from_slice(piece);
        self.count = end;
    }

    /// The text.
    pub fn bytes(&self) -> &[u8]
        ensures { result.now ≡ self.now }
    {
        &self.bytes[..self.count]
    }
}

/// The line that tells a status, empty where all is done. Takes no memory.
pub fn status_line(status: Status) -> Line
    ensures { result ≡ line_of status }
{
    let mut line = Line::new();
    match status {
        Status::Done => {}
        Status::Rejected {
            reason,
            place,
            found,
            wanted,
        } => {
            line.push(b"dpl: rejected ");
            push_number(&mut line, u64::from(reason));
            line.push(b" place ");
            push_number(&mut line, place);
            line.push(b" found ");
            push_signed(&mut line, found);
            line.push(b" wanted ");
            push_signed(&mut line, wanted);
            line.push(b"\n");
        }
        Status::Usage(kind) => {
            line.push(b"dpl: usage ");
            push_number(&mut line, u64::from(kind));
            line.push(b"\n");
        }
        Status::Layout { command, what } => {
            line.push(b"dpl: layout ");
            push_number(&mut line, u64::from(number_of(what)));
            line.push(b" at command ");
            push_number(&mut line, u64::from(command));
            line.push(b"\n");
        }
        Status::Limit { kind, count } => {
            line.push(b"dpl: limit ");
            push_number(&mut line, u64::from(kind));
            line.push(b" count ");
            push_number(&mut line, count);
            line.push(b"\n");
        }
        Status::Script { line: place, kind } => {
            line.push(b"dpl: script ");
            push_number(&mut line, u64::from(kind));
            line.push(b" at line ");
            push_number(&mut line, place);
            line.push(b"\n");
        }
        Status::ReadFault => line.push(b"dpl: read fault\n"),
        Status::WriteFault => line.push(b"dpl: write fault\n"),
        Status::NoMemory => line.push(b"dpl: no memory\n"),
    }
    line
}

fn push_number(line: &mut Line, number: u64)
    requires { length line.old + 40 ≤ 256 }
    ensures text { line.new ≡ line.old ++ decimal number }
    ensures short { length line.new ≤ length line.old + 40 }
{
    let mut buffer = Buffer::new();
    line.push(buffer.format(number).as_bytes());
}

fn push_signed(line: &mut Line, number: i64)
    requires { length line.old + 40 ≤ 256 }
    ensures text { line.new ≡ line.old ++ signed_decimal number }
    ensures short { length line.new ≤ length line.old + 40 }
{
    let mut buffer = Buffer::new();
    line.push(buffer.format(number).as_bytes());
}

/// The number of a rule of the layout.
fn number_of(what: What) -> u8
    ensures value { result ≡ what_number what }
{
    match what {
        What::Syntax => 1,
        What::Number => 2,
        What::Nest => 3,
        What::Twice => 4,
        What::Angle => 5,
        What::Layerless => 6,
        What::Slant => 7,
        What::OffGrid => 8,
        What::Round => 9,
        What::Delete => 10,
        What::Scale => 11,
        What::Missing => 12,
        What::Loop => 13,
        What::NoEnd => 14,
    }
}
