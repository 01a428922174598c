//! Components that stay keep their colours.
#![tactic(auto)]

mod comparing;
mod finding;
mod keeping;
mod laws;
mod laying;
mod marking;
mod pairing;

pub use keeping::{Coloured, keep_colours};
pub use laws::numbers_do_not_count;
pub use pairing::partners;
pub use std::alloc::AllocError as NoMemory;
