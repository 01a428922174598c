// Why a step that counts has no answer.
ghost use Rattle.std.specs.Prelude.{◌≡◌};
ghost use Rattle.dpl_limits.specs.declared.error.LimitError.TheVariants.{NoMemory};

use std::alloc::AllocError;
use thiserror::Error;

/// Why a step that counts one thing has no answer: there is more of it than the limit takes, or
/// memory ran out.
#[derive(Clone, Copy, Debug, PartialEq, Eq, Error)]
pub enum LimitError {
    #[error("more than the limit takes")]
    TooMany,
    #[error("out of memory")]
    NoMemory,
}

impl From<AllocError> for LimitError {
    ghost from_gives = { λ _ e. e ≡ NoMemory };

    fn from(_error: AllocError) -> LimitError {
        LimitError::NoMemory
    }
}
