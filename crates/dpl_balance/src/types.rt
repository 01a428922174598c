//! Types whose names differ from a function's by the capital.

/// How many cells mask A and mask B hold.
#[derive(Clone, Copy, Debug, PartialEq, Eq)]
pub struct Areas {
    pub a: u128,
    pub b: u128,
}
