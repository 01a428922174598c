// What a source and a sink of bytes do.
ghost use Rattle.std.specs.Prelude.{◌≡◌, ℕ, ◌<◌, List, length, IfOk};
ghost use Rattle.std.specs.declared.option.Option.{Option};
ghost use Rattle.std.specs.Io.{ReadsAtMost, WritesAtMost};
ghost use Rattle.std.specs.Io.KnownBytes.{ReadConsumes, WriteAppends};
ghost use Rattle.dpl_ext.specs.Device.{HasCause, CountsGiven, RoseBy, Seen, Texts, AnswersOpen};

use crate::opening::OpenEnd;
use thiserror::Error;

/// The answer of a device that failed. Why it failed is not told; its count of faults rose.
#[derive(Clone, Copy, Debug, PartialEq, Eq, Error)]
#[error("the device failed")]
pub struct Failed;

/// Bytes that come from outside.
pub trait Source {
    // What is known of the source.
    ghost seen: { Self → Seen };
    // How many reads there were.
    ghost reads: { Self → ℕ };

    /// Puts some bytes at the front of `into` and says how many. Where `into` has room, 0 is the end.
    fn read(&mut self, into: &mut [u8]) -> Result<usize, Failed>
        ensures bound { ReadsAtMost result into.new }
        ensures bytes { ReadConsumes (seen self.old).left (seen self.new).left result into.new }
        ensures counted { CountsGiven (seen self.old).given (seen self.new).given result }
        ensures cause { HasCause (seen self.old).faults (seen self.new).faults result }
        ensures same { (seen self.new).asked ≡ (seen self.old).asked }
        ensures reads { RoseBy 1 (reads self.old) (reads self.new) };
}

/// A source of several texts, each under a name.
pub trait Shelf: Source {
    // The names with their texts, where the shelf tells them. The first text of a name counts.
    ghost texts: { Self → Option Texts };

    /// The reads after Ok give the text of this name from its front.
    fn open(&mut self, name: &str) -> Result<(), OpenEnd>
        ensures answer { AnswersOpen (Self.seen self.old) (Self.seen self.new) (texts self.old)
            name.now result }
        ensures texts { texts self.new ≡ texts self.old }
        ensures reads { Self.reads self.new ≡ Self.reads self.old };
}

/// Where bytes go.
pub trait Sink {
    // The bytes that were taken, where the sink tells them.
    ghost taken: { Self → Option (List ℕ) };
    // How many calls failed.
    ghost faults: { Self → ℕ };

    /// Takes some bytes from the front of `piece`, at least one where there is one, and says how many.
    fn write(&mut self, piece: &[u8]) -> Result<usize, Failed>
        ensures bound { WritesAtMost result piece.now }
        ensures some { IfOk result (λ n. 0 < length piece.now → 0 < n) }
        ensures bytes { WriteAppends (taken self.old) (taken self.new) result piece.now }
        ensures cause { HasCause (faults self.old) (faults self.new) result };
}
