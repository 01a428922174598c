// Calls that a signal interrupts before they do anything are made again.
ghost use Rattle.std.specs.Io.{ReadsAtMost, WritesAtMost};
ghost use Rattle.std.specs.Io.KnownBytes.{ReadConsumes, WriteAppends};

use std::io;
use std::io::{Error, ErrorKind, Read, Write};

/// How many times an interrupted call is made again, before its error counts.
const MOST_REPEATS: u32 = 1000;

fn is_interrupted(error: &Error) -> bool {
    matches!(error.kind(), ErrorKind::Interrupted)
}

/// Reads, and again while the read is interrupted.
pub fn read_again<R: Read>(from: &mut R, into: &mut [u8]) -> io::Result<usize>
    ensures bound { ReadsAtMost result into.new }
    ensures bytes { ReadConsumes (R.remaining from.old) (R.remaining from.new) result into.new }
{
    for _repeat in 0..MOST_REPEATS {
        match from.read(into) {
            Err(error) if is_interrupted(&error) => {}
            read => return read,
        }
    }
    from.read(into)
}

/// Writes, and again while the write is interrupted.
pub fn write_again<W: Write>(to: &mut W, piece: &[u8]) -> io::Result<usize>
    ensures bound { WritesAtMost result piece.now }
    ensures bytes { WriteAppends (W.contents to.old) (W.contents to.new) result piece.now }
{
    for _repeat in 0..MOST_REPEATS {
        match to.write(piece) {
            Err(error) if is_interrupted(&error) => {}
            written => return written,
        }
    }
    to.write(piece)
}
