//! What chains are kept as.

ghost use Rattle.std.specs.Prelude.{◌≡◌};
ghost use Rattle.dpl_flood.specs.Arenas.{turned};

/// The last way of a chain, and the node of what leads up to it.
#[derive(Clone, Copy, Debug)]
pub struct Last {
    pub before: u32,
    pub way: u32,
}

/// A chain from the seat of a member to a face, and how long it is. Without a last way it stands at the seat: then it is
/// the first node of its member, and the member has its number.
#[derive(Clone, Copy, Debug)]
pub struct Node {
    pub last: Option<Last>,
    pub face: u32,
    pub member: u32,
    pub far: u64,
}

/// A chain from seat to seat: that to one node, a way from its face to the face of another node, and the chain to that
/// one backwards.
#[derive(Clone, Copy, Debug)]
pub struct Join {
    pub first: u32,
    pub way: u32,
    pub second: u32,
}

impl Join {
    /// The same from the other end.
    pub fn turned(&self) -> Join
        ensures { result ≡ turned self.now }
    {
        Join {
            first: self.second,
            way: self.way,
            second: self.first,
        }
    }
}
