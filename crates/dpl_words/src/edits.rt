// The lines of a script.
use dpl_cell::Rect;
use thiserror::Error;

/// A box to add, or the number of one to remove.
#[derive(Clone, Copy, Debug)]
pub enum Line {
    Add(Rect),
    Remove(u64),
}

/// Why a text is no script.
#[derive(Clone, Copy, Debug, PartialEq, Eq, Error)]
pub enum ScriptError {
    /// The number, from 1, of the first line that is not of the form.
    #[error("line {0} is no edit")]
    Bad(u64),
    #[error("out of memory")]
    NoMemory,
}
