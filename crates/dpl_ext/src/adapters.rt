// Readers of std as sources, and its writers as sinks.
ghost use Rattle.std.specs.Prelude.{◌≡◌, ◌<◌, [], length, IfOk};
ghost use Rattle.std.specs.Io.{ReadsAtMost, WritesAtMost};
ghost use Rattle.std.specs.Io.KnownBytes.{ReadConsumes, WriteAppends};
ghost use Rattle.dpl_ext.specs.Device.{HasCause, CountsGiven, CountsFaults, RoseBy};

use crate::devices::{Failed, Sink, Source};
use crate::interrupted::{read_again, write_again};
use std::io::{Read, Write};

/// A reader of std as a source. Each error of the reader is a fault, but for interrupted reads, which are made again.
#[derive(Drop)]
pub struct ReadSource<R: Read> {
    from: R,
    faults: u64,
    given: u64,
    reads: u64,
}

impl<R: Read> ReadSource<R> {
    /// A source over this reader, of which nothing is counted yet.
    pub fn new(from: R) -> ReadSource<R>
        ensures reader { result.from ≡ from }
        ensures counts { (result.faults ≡ 0) × (result.given ≡ 0) × (result.reads ≡ 0) }
    {
        ReadSource {
            from,
            faults: 0,
            given: 0,
            reads: 0,
        }
    }
}

impl<R: Read> Source for ReadSource<R> {
    ghost seen = { λ s. record {
      left = R.remaining s.from;
      faults = s.faults;
      given = s.given;
      asked = [];
    } };

    ghost reads = { λ s. s.reads };

    fn read(&mut self, into: &mut [u8]) -> Result<usize, Failed>
        ensures bound { ReadsAtMost result into.new }
        ensures bytes { ReadConsumes (R.remaining self.old.from) (R.remaining self.new.from) result
            into.new }
        ensures counted { CountsGiven self.old.given self.new.given result }
        ensures cause { HasCause self.old.faults self.new.faults result }
        ensures reads { RoseBy 1 self.old.reads self.new.reads }
        ensures faults { CountsFaults self.old.faults self.new.faults result }
    {
        self.reads = self.reads.saturating_add(1);
        match read_again(&mut self.from, into) {
            Ok(count) => {
                self.given = self.given.saturating_add(count as u64);
                Ok(count)
            }
            Err(_) => {
                self.faults = self.faults.saturating_add(1);
                Err(Failed)
            }
        }
    }
}

/// A writer of std as a sink. Each error of the writer is a fault, but for interrupted writes, which are made again,
/// and so is a write that takes nothing of a piece that is not empty.
#[derive(Drop)]
pub struct WriteSink<W: Write> {
    to: W,
    faults: u64,
}

impl<W: Write> WriteSink<W> {
    /// A sink over this writer, without a fault yet.
    pub fn new(to: W) -> WriteSink<W>
        ensures writer { result.to ≡ to }
        ensures count { result.faults ≡ 0 }
    {
        WriteSink { to, faults: 0 }
    }
}

impl<W: Write> Sink for WriteSink<W> {
    ghost taken = { λ s. W.contents s.to };

    ghost faults = { λ s. s.faults };

    fn write(&mut self, piece: &[u8]) -> Result<usize, Failed>
        ensures bound { WritesAtMost result piece.now }
        ensures some { IfOk result (λ n. 0 < length piece.now → 0 < n) }
        ensures bytes { WriteAppends (W.contents self.old.to) (W.contents self.new.to) result
            piece.now }
        ensures cause { HasCause self.old.faults self.new.faults result }
        ensures faults { CountsFaults self.old.faults self.new.faults result }
    {
        match write_again(&mut self.to, piece) {
            Ok(count) if count > 0 || piece.is_empty() => Ok(count),
            _ => {
                self.faults = self.faults.saturating_add(1);
                Err(Failed)
            }
        }
    }
}
