// Work on a layout.
ghost use Rattle.std.specs.Prelude.{◌≡◌};
ghost use Rattle.dpl_words.specs.Works.{file_of};

/// What is done with a layout. Two of these read a file beside it.
#[derive(Drop)]
pub enum Work<F> {
    Split,
    Check(F),
    Cross,
    Edit(F),
    Balance,
    Refine,
}

/// The option that names a file beside the layout.
#[derive(Clone, Copy, Debug, PartialEq, Eq)]
pub enum FileOption {
    Report,
    Script,
}

impl FileOption {
    ghost use Rattle.std.specs.Prelude.{◌≡◌};
    ghost use Rattle.dpl_words.specs.Works.{name_of};

    /// The name of the option.
    pub fn name(self) -> &'static str
        ensures { result.now ≡ name_of self }
    {
        match self {
            FileOption::Report => "report",
            FileOption::Script => "script",
        }
    }
}

/// The option that names the file beside the layout, where the work reads one.
pub fn file_option(work: &Work<FileOption>) -> Option<FileOption>
    ensures { result ≡ file_of work.now }
{
    match work {
        Work::Check(option) => Some(*option),
        Work::Edit(option) => Some(*option),
        _ => None,
    }
}
