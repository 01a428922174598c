//! From the text of a layout to the fragments and the net of one layer.
//!
//! `read_layer` reads the text, cuts the tiles of the layer into fragments and links them. Nothing is cut
//! in a cell of the keep layer. What it gives is the one list of fragments and the one net that the layer
//! has (`one_layer`), and it answers each refusal exactly where the text breaks that rule or passes that
//! limit first. `layer_of_commands` gives the same where the text is already cut. Its two stages are
//! public: `read_drawing` reads the two layers, and `layer_of` makes the fragments and the net.
#![tactic(auto)]

mod drawing;
mod error;
mod laws;
mod laying;
mod reading;

pub use drawing::{Drawing, read_drawing};
pub use error::LayerError;
pub use laws::{layers_may_be_moved, layers_share_out, one_layer};
pub use laying::{Layer, layer_of};
pub use reading::{layer_of_commands, read_layer};
