// Layouts that are written, and how they are read.
ghost use Rattle.dpl_boxes.specs.Written.{
  LayoutsAreRead,
  TakenTextsAreLayouts,
  CommandsAreRead,
  PlainLayoutsAreLayouts,
};

/// A text is read as commands, up to an end command, exactly where it is a layout of them by the grammar of CIF 2.0, as
/// `specs/Written.antt` has it; so a text that breaks no rule is one. A command that is written is read by itself, and
/// all commands that can be written have a layout. Nothing runs.
pub fn layouts_are_read()
    ensures whole { LayoutsAreRead }
    ensures taken { TakenTextsAreLayouts }
    ensures each { CommandsAreRead }
    ensures plain { PlainLayoutsAreLayouts }
{}
