//! What comes next of moats.

/// A way from a face to another one.
#[derive(Clone, Copy, Debug)]
pub struct Crossing {
    pub from: u32,
    pub way: u32,
    pub to: u32,
}

/// What comes next.
#[derive(Clone, Copy, Debug)]
pub enum Event {
    /// A top that grows takes a face in open water.
    Take(Crossing),
    /// A top that grows meets a free one.
    Grow(Crossing),
    /// Two tops that grow meet: of one tree, which folds, or of two, which end.
    Meet(Crossing),
    /// A top that falls leaves its last face.
    Leave(u32),
    /// A top that falls is at its end: it gives way to its children, and a single closes.
    GiveWay(u32),
}
