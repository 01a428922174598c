//! Signed graphs drawn in the plane: what a colouring of the nodes breaks and costs, the faces of a
//! set of edges by the ports at which they leave the nodes, the excess by Euler's formula, which edges
//! are set aside for it, and packings of odd walks.
//!
//! The laws say that a packing bounds the cost of every colouring, how one edge more changes the
//! excess, that what is kept is plane, and that nothing is set aside exactly where all is.
#![tactic(auto)]

mod costs;
mod darts;
mod edges;
mod graph_tests;
mod graphs;
mod kinds;
mod laws;
mod nets;
mod order;
mod ports;
mod rotating;
mod walks;

pub use costs::{broken, cost};
pub use darts::{is_in, tail, twin};
pub use edges::{Edge, Kind};
pub use graphs::Signed;
pub use laws::{
    aside_is_by_the_excess, components_are_joined, drawings_are_alike, drawings_are_opposite,
    edges_aside_cross, edges_aside_raise_the_excess, edges_never_lower_the_excess, excess_is_even,
    excess_never_falls, kept_edges_are_plane, loads_count_passages, nothing_is_aside_where_plane,
    packing_bounds, ports_are_in_order, ports_may_be_mirrored, ports_may_be_moved,
    rotation_follows_ports,
};
pub use nets::Net;
pub use order::port_order;
pub use ports::Port;
pub use rotating::{is_met_before, next_around};
pub use walks::{Cycle, Walk};
