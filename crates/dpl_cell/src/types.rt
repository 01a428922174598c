//! Types whose names differ from a function's by the capital alone.

/// The line along which two rectangles share edges, in grid units: upright at the column line `at` from row `from`
/// to row `to`, or level at the row line `at` from column `from` to column `to`.
#[derive(Clone, Copy, Debug, PartialEq, Eq)]
pub struct Seam {
    pub upright: bool,
    pub at: i64,
    pub from: i64,
    pub to: i64,
}

/// How one rectangle lies to another with which it shares no cell. Ports stand counterclockwise around the first:
/// 0 SW, 1 S, 2 SE, 3 E, 4 NE, 5 N, 6 NW, 7 W.
#[derive(Clone, Copy, Debug, PartialEq, Eq)]
pub enum Facing {
    /// They share columns, at port 1 or 5, or rows, at port 3 or 7: those from `from` to `to`, in grid units.
    Side { port: u8, from: i64, to: i64 },
    /// They share neither: the second lies off a corner, with so many columns and rows between the two.
    Corner { port: u8, dx: u64, dy: u64 },
}
