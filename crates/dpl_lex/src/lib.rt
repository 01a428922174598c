//! The commands of a CIF text, and the integers and layer names in them.
//!
//! `commands` cuts a text exactly by the rules of `specs/Cutting.antt`; `Numbers` and `Name` read
//! exactly what `specs/Number.antt` and `specs/Name.antt` define. Only `commands` takes memory.
#![tactic(auto)]

pub mod classes;
mod cutting;
mod lexer;
mod name;
mod number;
pub mod types;

pub use cutting::cutting_rules;
pub use lexer::{Lexer, commands};
pub use name::Name;
pub use number::{Num, Numbers};
pub use types::{Ending, Span};
