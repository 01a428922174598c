//! The groups of a directed graph: two nodes are in one group where each leads to the other.
//!
//! `find_groups` finds them by one walk in depth with a stack of its own, in time that grows with the number of
//! nodes and edges. Groups are numbered so that no edge leads to a group with a greater number.
#![tactic(auto)]

mod finding;
mod walk;

pub use finding::{Groups, find_groups};
