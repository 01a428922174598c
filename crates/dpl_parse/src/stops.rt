// Why reading ended.
ghost use Rattle.std.specs.Prelude.{◌≡◌, length};
ghost use Rattle.dpl_form.specs.Lines.{lines_in};
ghost use Rattle.dpl_parse.specs.declared.stops.Stop.TheVariants.{NoMemory};

use dpl_form::count_lines;
use std::alloc::{AllocError, AllocFailed};

/// Why a part of a report was not read.
#[derive(Debug, Drop)]
pub enum Stop {
    /// A line that cannot stand, told by the number of lines from it on.
    Line(usize),
    NoMemory,
}

impl From<AllocError> for Stop {
    ghost from_gives = { λ _ e. e ≡ NoMemory };

    fn from(_e: AllocError) -> Stop {
        Stop::NoMemory
    }
}

impl<T: Drop> From<AllocFailed<T>> for Stop {
    ghost from_gives = { λ _ e. e ≡ NoMemory };

    fn from(_e: AllocFailed<T>) -> Stop {
        Stop::NoMemory
    }
}

/// The first line of this text cannot stand.
pub fn stop_at(text: &[u8]) -> Stop
    ensures { result ≡ Stop.Line (length (lines_in text.now)) }
{
    Stop::Line(count_lines(text))
}
