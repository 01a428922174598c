// Why a text has no layout.
use dpl_rules::What;
use thiserror::Error;

/// A limit of the reader.
#[derive(Clone, Copy, Debug, PartialEq, Eq)]
pub enum CifLimit {
    /// More than `MOST_PRIMITIVES`, a polygon counted as many times as it has points.
    Primitives = 1,
    /// More than 1,000,000 calls that are carried out.
    Calls,
    /// A corner with a magnitude of more than 1,073,741,824 grid units.
    Coordinate,
}

/// Why a text has no layout. Commands count from 1; a count is at most 1,000,000,000,000.
#[derive(Clone, Copy, Debug, PartialEq, Eq, Error)]
pub enum CifError {
    #[error("layout fault {what:?} at command {command}")]
    Fault { command: u32, what: What },
    #[error("limit {kind:?} passed with {count}")]
    Limit { kind: CifLimit, count: u64 },
    #[error("no memory")]
    NoMemory,
}
