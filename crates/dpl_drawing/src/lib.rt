//! Drawing the edges of a net: which are kept, which are set aside, and the excess over all of them.
//!
//! `draw` finds what the definitions of `dpl_sign` say, each edge looked at once. It rests on named
//! cycles: a permutation of which each exchange splits a cycle or joins two, the shorter one walked.
#![tactic(auto)]

mod cycles;
mod drawn;
mod nearness;
mod numbering;
mod planes;
mod turning;
mod walking;
mod whole;

pub use cycles::Cycles;
pub use drawn::{Drawing, draw};
pub use numbering::{Numbered, number};
pub use walking::{mark, shorter_first};
