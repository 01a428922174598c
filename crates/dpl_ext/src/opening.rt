// Why an open gave nothing.
use thiserror::Error;

/// Why no text is open.
#[derive(Clone, Copy, Debug, PartialEq, Eq, Error)]
pub enum OpenEnd {
    #[error("the device failed")]
    Failed,
    #[error("out of memory")]
    NoMemory,
}
