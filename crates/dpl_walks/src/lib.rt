//! The cycle lines of a report, read where they stand in its text.
//!
//! A cycle line may have more edges than memory has room for as a list. `front_cycles` tells how many cycle lines stand
//! at the front of a text, by their bytes; `Cycles` gives them one by one, and `Edges` the edges of one of them. `behind`,
//! `decimal_at` and `short_at` read a front and a number of any line in the same way.
#![tactic(auto)]

mod cycles;
mod scanning;

pub use cycles::{Cycles, Edges, WrittenCycle, front_cycles};
pub use scanning::{behind, decimal_at, short_at};
