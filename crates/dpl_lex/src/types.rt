// The commands of a text as a value.
use dpl_list::Items;

/// Where a command stands in its text: its first byte, and the semicolon behind it.
#[derive(Clone, Copy, Debug, PartialEq, Eq)]
pub struct Span {
    pub start: u32,
    pub end: u32,
}

/// Why there are no more commands: the end command, the end of the text, or a comment that is
/// never closed.
#[derive(Clone, Copy, Debug, PartialEq, Eq)]
pub enum Ending {
    End,
    NoEnd,
    Paren,
}

/// The finished commands of a text in their order, and why there are no more.
#[derive(Drop)]
pub struct Commands {
    pub spans: Items<Span>,
    pub ending: Ending,
}

/// A text and its commands.
#[derive(Drop)]
pub struct Lexed {
    pub text: Vec<u8>,
    pub commands: Commands,
}
