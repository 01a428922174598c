//! The program over words and devices.
//!
//! `run` splits a layout, with masks that cover about the same area where that is asked, checks a report against one,
//! tells what keeps a drawing from being plane, or splits a made layout, as its words ask, and says for all words and
//! devices what was answered, written, read and asked. A split that is done writes the text of a report whose masks
//! together are the layer, overlap exactly at the listed stitches and break the spacing only at the listed clashes; its
//! cost exceeds half its bound by exactly what is broken of the edges set aside. `laws` has what the words of the
//! contract mean. `Status` is how a run ends: its exit status and its line on the error output.
#![tactic(auto)]

mod answering;
mod commands;
mod due;
mod feeding;
mod inputs;
pub mod laws;
mod line;
mod lines;
mod running;
mod status;
mod texts;

pub use running::run;
pub use status::Status;
