// What can be wrong with a layout.
use thiserror::Error;

/// What is wrong with a layout. The last three are no matter of one command.
#[derive(Clone, Copy, Debug, PartialEq, Eq)]
pub enum What {
    Syntax = 1,
    Number,
    Nest,
    Twice,
    Angle,
    Layerless,
    Slant,
    OffGrid,
    Round,
    Delete,
    Scale,
    Missing,
    Loop,
    NoEnd,
}

/// Why a command was not read.
#[derive(Clone, Copy, Debug, PartialEq, Eq, Error)]
pub enum Refusal {
    #[error("it breaks the rule {0:?}")]
    Breaks(What),
    #[error("no memory")]
    NoMemory,
}
