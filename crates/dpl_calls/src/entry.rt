// A part of a definition.
use crate::apart::Apart;
use crate::figure::Figure;
use crate::moves::Move;

/// A part of a definition: a figure, or a call of the definition with this number, written as the
/// command `at`.
#[derive(Drop)]
pub enum Entry {
    Drawn(Apart<Figure>),
    Called { at: u32, number: u64, moves: Move },
}
