//! Where a report fails.

/// Where a condition fails, what stands there and what has to.
#[derive(Clone, Copy, Debug, PartialEq, Eq)]
pub struct Miss {
    pub place: u64,
    pub found: i64,
    pub wanted: i64,
}

/// A condition by its number, and where it fails.
#[derive(Clone, Copy, Debug)]
pub struct Refusal {
    pub reason: u8,
    pub at: Miss,
}
