//! A face that a member holds.

/// A face whose point lies so far from the seat of a member, on the way of the member out to open water.
#[derive(Clone, Copy, Debug)]
pub struct Held {
    pub face: u32,
    pub member: u32,
    pub far: u64,
}
