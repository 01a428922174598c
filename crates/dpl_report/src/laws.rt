// What holds of every report.
ghost use Rattle.dpl_report.specs.Laws.{TextsDiffer, ReportsAreDrawn, PlainIsExact};

/// No two reports have one text, and each text draws its masks. Facts about the definitions; nothing runs.
pub fn report_rules()
    ensures differ { TextsDiffer }
    ensures exact { PlainIsExact }
    ensures drawn { ReportsAreDrawn }
{}
