// How a run of the program ends.
ghost use Rattle.std.specs.Prelude.{◌≡◌};

use dpl_cif::What;

/// How a run of the program ends.
#[derive(Clone, Copy, Debug, PartialEq, Eq)]
pub enum Status {
    Done,
    /// The first condition of a good report that fails, from 1 to 9, where, and what stands there and what has to.
    Rejected {
        reason: u8,
        place: u64,
        found: i64,
        wanted: i64,
    },
    /// The words are not a command with its options (1), an option is missing (2), a value is out of its range (3).
    Usage(u8),
    /// The first rule of the layout that is broken, and the number of the command that breaks it, from 1.
    Layout {
        command: u32,
        what: What,
    },
    /// The number of the limit that is passed, from 1 to 10, and the count that passes it.
    Limit {
        kind: u8,
        count: u64,
    },
    /// The line of the script that is not of the form (1) or removes a box that is not there (2), from 1.
    Script {
        line: u64,
        kind: u8,
    },
    ReadFault,
    WriteFault,
    NoMemory,
}

impl Status {
    ghost use Rattle.dpl_run.specs.Lines.{code_of};

    /// The exit status of the process.
    pub fn code(&self) -> u8
        ensures { result ≡ code_of self.now }
    {
        match self {
            Status::Done => 0,
            Status::Rejected { .. } => 1,
            Status::Usage(_) => 2,
            Status::Layout { .. } => 3,
            Status::Limit { .. } => 4,
            Status::ReadFault => 5,
            Status::WriteFault => 6,
            Status::NoMemory => 7,
            Status::Script { .. } => 8,
        }
    }
}
