//! A graph as its parts are solved.

use dpl_dual::Dual;
use dpl_map::Map;
use dpl_sign::Signed;

/// A graph, its map, and the dual of the map.
#[derive(Clone, Copy)]
pub struct Drawn<'a> {
    pub graph: &'a Signed,
    pub map: &'a Map<'a>,
    pub dual: &'a Dual,
}
