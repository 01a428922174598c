// What a command says, with its numbers as they are written.
use dpl_lex::Name;
use dpl_list::Items;

/// A point or a direction, in hundredths of a micron before any scale.
#[derive(Clone, Copy, Debug, PartialEq, Eq)]
pub struct Spot {
    pub x: i64,
    pub y: i64,
}

/// A box: its length lies along its direction.
#[derive(Clone, Copy, Debug, PartialEq, Eq)]
pub struct BoxForm {
    pub length: u64,
    pub width: u64,
    pub centre: Spot,
    pub direction: Spot,
}

/// One transformation of a call.
#[derive(Clone, Copy, Debug, PartialEq, Eq)]
pub enum Transformation {
    Shift(Spot),
    MirrorX,
    MirrorY,
    Rotate(Spot),
}

/// Distances are multiplied by `times` and divided by `over`.
#[derive(Clone, Copy, Debug, PartialEq, Eq)]
pub struct Scale {
    pub times: u64,
    pub over: u64,
}

/// A command by its form. An integer beyond 1,000,000,000,000 stands as 1,000,000,000,001.
#[derive(Drop)]
pub enum Command {
    /// An empty command, a comment or a user extension.
    Idle,
    Polygon(Items<Spot>),
    Box(BoxForm),
    Wire(u64, Items<Spot>),
    Flash(u64, Spot),
    Layer(Name),
    Start(u64, Scale),
    Finish,
    Delete(u64),
    Call(u64, Items<Transformation>),
}
