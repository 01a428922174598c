//! Rectangles, polygons and layers of the grid, and how far apart they are.
//!
//! A layer is a set of cells, unit squares of the grid. `gap2`, `are_close`, `touch`, `seam` and `facing`
//! answer by the cells of two rectangles, and `is_held` says whether a layer holds a cell. A `Stretch` is a stretch of the
//! places of one row or column.
#![tactic(auto)]

mod facings;
mod gaps;
mod held;
pub mod laws;
mod layout;
mod point;
mod points;
mod range;
mod rect;
mod seams;
mod spans;
mod stretch;
pub mod types;

pub use facings::facing;
pub use gaps::{apart, are_close, gap2};
pub use held::is_held;
pub use layout::{Layout, Primitive as Prim};
pub use point::Point;
pub use points::Points;
pub use rect::Rect;
pub use seams::{seam, touch};
pub use spans::{is_between, meet};
pub use stretch::Stretch;
