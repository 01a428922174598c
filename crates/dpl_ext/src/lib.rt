//! The outside world as the program sees it: sources that give bytes and sinks that take them.
//!
//! Every device counts its faults, so whoever calls it can tell a device that failed from one that
//! did not. `read_all` gives all bytes that were left or says why not, `read_each` hands them to a
//! taker besides, piece by piece, and `write_all` has all bytes taken or says that the sink failed,
//! over every device that keeps to its trait. `laws` has what the words of these contracts mean.
#![tactic(auto)]

mod adapters;
mod devices;
mod file_shelf;
mod interrupted;
pub mod laws;
mod mem_shelf;
mod memory;
mod opening;
mod reading;
mod taking;
mod writing;

pub use adapters::{ReadSource, WriteSink};
pub use devices::{Failed, Shelf, Sink, Source};
pub use file_shelf::FileShelf;
pub use mem_shelf::MemShelf;
pub use memory::{MemSink, MemSource};
pub use opening::OpenEnd;
pub use reading::{ReadEnd, read_all, read_each};
pub use std::alloc::AllocError as NoMemory;
pub use taking::Taker;
pub use writing::write_all;
