//! Where a number leads, and what leads to it.

#[derive(Clone, Copy)]
pub(crate) struct Pair {
    pub(crate) next: u32,
    pub(crate) prev: u32,
}
