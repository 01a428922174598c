//! The optimum of a net, one component after another.
//!
//! A net is the sum of its components (`sum_rules` of `dpl_parts`), so solutions of the parts that share it out are a
//! solution of the net (`solutions_add_up`). `combine` puts solutions of parts together. `solve` promises what `solve` of `dpl_solve` does; `solve_again` takes solutions of
//! components that are known, where nodes, edges and ports are the same, and solves only the others.
#![tactic(auto)]

mod combining;
mod comparing;
mod laws;
mod solving;

pub use combining::{SolvedPart, combine};
pub use comparing::copy_solution;
pub use laws::solutions_add_up;
pub use solving::{Solved, solve, solve_again};
pub use std::alloc::AllocError as NoMemory;
