//! Cyclic lists over the numbers below `n`, seen as the permutation that leads each number to the
//! next one of its cycle. A splice exchanges where two numbers lead: it splits their cycle, or
//! joins their two cycles.
#![tactic(auto)]

mod block;
mod pair;
mod pairs;
mod ring;

pub use ring::Ring;
