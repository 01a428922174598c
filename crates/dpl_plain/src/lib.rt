//! The definitions of drawings as plain programs, each proved to give just what its definition says.
//!
//! They go over all edges for each dart, and over all darts for each edge: they are for small
//! drawings, and for tests of fast ones.
#![tactic(auto)]

mod aside;
mod components;
mod cycles;
mod euler;
mod faces;
mod neighbours;
mod parity;
mod parts;
mod replace;

pub use aside::{aside_edges, kept_edges};
pub use components::component_count;
pub use euler::{excess, total_excess};
pub use faces::face_count;
pub use neighbours::{are_neighbours, leads};
pub use parity::{face_name, is_odd_face, meets_faces, passages_on_face};
pub use parts::are_of_one_part;
