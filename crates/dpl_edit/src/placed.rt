// A box that was added to a session.
use dpl_cell::Rect;

/// A box that was added, and its number: the count of the boxes that were added before.
#[derive(Clone, Copy, Debug)]
pub struct Placed {
    pub number: u64,
    pub rect: Rect,
}
