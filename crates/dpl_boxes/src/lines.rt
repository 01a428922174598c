// Lines of a CIF text, and what they say.
ghost use Rattle.dpl_boxes.specs.Lines.{LinesAreRead, CommentsAreRead};
ghost use Rattle.dpl_boxes.specs.MaskLines.{LayersAreRead, BoxesAreRead};
ghost use Rattle.dpl_boxes.specs.Drawings.{AllMasksAreDrawn};

/// How a text of one command a line is read again: what its lines say, one after another, and what masks behind
/// comments draw. They are facts about the definitions of `dpl_lex`, `dpl_rules` and `dpl_calls`; nothing runs.
pub fn line_rules()
    ensures lines { LinesAreRead }
    ensures comments { CommentsAreRead }
    ensures layers { LayersAreRead }
    ensures boxes { BoxesAreRead }
    ensures masks { AllMasksAreDrawn }
{}
