//! A session of edits: boxes are added to a layer and removed, and its report follows.
//!
//! A `Session` holds the content of one layer, the primitives that it began with and the boxes that
//! were added and not removed, with its net and an optimum. `report` gives the report of the content
//! at any time, good and tight. An edit is refused exactly where the new content passes a limit, or
//! names a box that is not there, and then the session is as before. A session counts
//! primitives as the reader of its layout does (`sessions_count_as_readers`).
#![tactic(auto)]

mod contents;
mod editing;
mod errors;
mod laws;
mod placed;
mod recalling;
mod sessions;
mod solved;
mod weighing;

pub use errors::RemoveError;
pub use laws::masks_are_kept;
pub use placed::Placed;
pub use sessions::Session;
pub use weighing::sessions_count_as_readers;
