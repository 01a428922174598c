// Why a box is not removed.
use dpl_layer::LayerError;
use thiserror::Error;

/// Why a box is not removed.
#[derive(Clone, Copy, Debug, PartialEq, Eq, Error)]
pub enum RemoveError {
    /// No box with this number is there.
    #[error("no box {0}")]
    NoBox(u64),
    /// The content without the box is not taken.
    #[error("{0}")]
    Refused(LayerError),
}
