//! What a sweep from the lowest row up has found so far.
use dpl_cell::Rect;
use dpl_stacks::Stacks;

/// The tiles that ended, and the stacks that go on.
#[derive(Drop)]
pub struct Sweep {
    pub ended: Vec<Rect>,
    pub stacks: Stacks,
}
