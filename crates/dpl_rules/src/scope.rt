// What is in force behind a command.
use crate::command::Scale;

/// What is in force behind a command.
#[derive(Clone, Copy, Debug, PartialEq, Eq)]
pub struct Scope {
    /// The number of the definition that was begun.
    pub definition: Option<u64>,
    /// Whether the layer that is set is the chosen one.
    pub layer: Option<bool>,
    /// The same of the layer that is set outside the definition.
    pub outer: Option<bool>,
    pub scale: Scale,
}
