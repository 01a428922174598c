// Why a text has no layer, and what the errors of the steps below become.
ghost use Rattle.std.specs.Prelude.{◌≡◌, ◌<◌, ◌^◌};
ghost use Rattle.dpl_limits.specs.Limits.{most_of};
ghost use Rattle.dpl_layer.specs.declared.error.LayerError.TheVariants.{NoMemory};
ghost use Rattle.dpl_layer.specs.Errors.{of_reading, of_step};

use dpl_cif::{CifError, CifLimit, What};
use dpl_limits::{Counted, LimitError};
use std::alloc::AllocError;
use thiserror::Error;

/// Why a text has no layer, no report or no verdict. Commands count from 1.
#[derive(Clone, Copy, Debug, PartialEq, Eq, Error)]
pub enum LayerError {
    /// The first broken rule of the layout and the command that breaks it.
    #[error("command {command} breaks the rule {what:?}")]
    Layout { command: u32, what: What },
    /// The first limit that is passed and the count that passes it: primitives (2), calls
    /// (3), the greatest coordinate in grid units (4), tiles (5), fragments (6), edges (7).
    #[error("limit {kind} is passed by {count}")]
    Limit { kind: u8, count: u64 },
    #[error("out of memory")]
    NoMemory,
}

impl From<AllocError> for LayerError {
    ghost from_gives = { λ _ e. e ≡ NoMemory };

    fn from(_error: AllocError) -> LayerError {
        LayerError::NoMemory
    }
}

impl From<CifError> for LayerError {
    ghost from_gives = { λ error e. e ≡ of_reading error };

    fn from(error: CifError) -> LayerError {
        match error {
            CifError::Fault { command, what } => LayerError::Layout { command, what },
            CifError::Limit {
                kind: CifLimit::Primitives,
                count,
            } => LayerError::Limit {
                kind: Counted::Primitives.number(),
                count,
            },
            CifError::Limit {
                kind: CifLimit::Calls,
                count,
            } => LayerError::Limit {
                kind: Counted::Calls.number(),
                count,
            },
            CifError::Limit {
                kind: CifLimit::Coordinate,
                count,
            } => LayerError::Limit {
                kind: Counted::Coordinates.number(),
                count,
            },
            CifError::NoMemory => LayerError::NoMemory,
        }
    }
}

/// The error of a step that counts these, as one of the whole.
pub fn refusal(counted: Counted, error: LimitError) -> LayerError
    requires { most_of counted < 2 ^ 32 }
    ensures { result ≡ of_step counted error }
{
    match error {
        LimitError::TooMany => LayerError::Limit {
            kind: counted.number(),
            count: counted.most() + 1,
        },
        LimitError::NoMemory => LayerError::NoMemory,
    }
}
