// What the limits count.
ghost use Rattle.std.specs.Prelude.{◌≡◌};
ghost use Rattle.dpl_limits.specs.Limits.{number_of, most_of};

use crate::{
    FARTHEST, MOST_CALLS, MOST_EDGES, MOST_FRAGMENTS, MOST_LAYOUT_BYTES, MOST_PRIMITIVES,
    MOST_REPORT_BYTES, MOST_SCRIPT_BYTES, MOST_TILES,
};

/// What a limit counts. The bytes of a layout, of a report and of a script are counted as they are
/// read, and the others are tried in this order.
#[derive(Clone, Copy, Debug, PartialEq, Eq)]
pub enum Counted {
    LayoutBytes,
    Primitives,
    Calls,
    /// The greatest magnitude of a coordinate, in grid units.
    Coordinates,
    Tiles,
    Fragments,
    Edges,
    ReportBytes,
    ScriptBytes,
}

impl Counted {
    /// The number by which an answer names the limit.
    pub fn number(self) -> u8
        ensures { result ≡ number_of self }
    {
        match self {
            Counted::LayoutBytes => 1,
            Counted::Primitives => 2,
            Counted::Calls => 3,
            Counted::Coordinates => 4,
            Counted::Tiles => 5,
            Counted::Fragments => 6,
            Counted::Edges => 7,
            Counted::ReportBytes => 9,
            Counted::ScriptBytes => 10,
        }
    }

    /// The most that is taken.
    pub fn most(self) -> u64
        ensures { result ≡ most_of self }
    {
        match self {
            Counted::LayoutBytes => MOST_LAYOUT_BYTES,
            Counted::Primitives => MOST_PRIMITIVES,
            Counted::Calls => MOST_CALLS,
            Counted::Coordinates => FARTHEST as u64,
            Counted::Tiles => MOST_TILES as u64,
            Counted::Fragments => MOST_FRAGMENTS as u64,
            Counted::Edges => MOST_EDGES as u64,
            Counted::ReportBytes => MOST_REPORT_BYTES,
            Counted::ScriptBytes => MOST_SCRIPT_BYTES,
        }
    }
}
