//! What is asked of a split: the layer, the spacing and the overlap, what is broken weighs, and the layer where
//! nothing is cut. Each option is in its range (`Options::in_range`). From the words to the report contracts see the
//! options as one plain value, `PlainOptions` in `specs/Options`.
#![tactic(auto)]

mod options;
mod weights;

pub use options::{Options, name_bytes, same_keep, same_name};
pub use weights::Weights;
