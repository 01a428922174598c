//! What the words of the contract of `run` mean, said without them: no proof guards a definition but these.
ghost use Rattle.std.specs.Prelude.{◌≡◌, ◌≢◌, ◌⊎◌, ◌↔◌, ℕ, ℤ, ◌+◌, ◌<◌, ◌≤◌, true, List, [], ◌∷◌, ◌++◌, length, Option, None, Some, Result, Ok, Err};
ghost use Rattle.dpl_limits.specs.declared.TheConstants.{MOST_LAYOUT_BYTES, MOST_REPORT_BYTES, MOST_SCRIPT_BYTES};
ghost use Rattle.dpl_cell.specs.Places.{Corners};
ghost use Rattle.dpl_cell.specs.Layers.{is_within, is_in_box};
ghost use Rattle.dpl_cell.specs.Cells.{IsWithin, IsIn};
ghost use Rattle.dpl_cuts.specs.declared.types.Fragments.{Fragments};
ghost use Rattle.dpl_sign.specs.declared.nets.Net.{Net};
ghost use Rattle.dpl_sign.specs.Excess.{excess, all_edges, aside_edges};
ghost use Rattle.dpl_euler.specs.declared.types.Bar.{Bar};
ghost use Rattle.dpl_euler.specs.declared.types.Crossing.{Crossing};
ghost use Rattle.dpl_euler.specs.declared.types.With.{With};
ghost use Rattle.dpl_euler.specs.Bars.{IsBar};
ghost use Rattle.dpl_euler.specs.Crossings.{IsWith};
ghost use Rattle.dpl_ext.specs.Device.{Seen, Texts, last_count};
ghost use Rattle.dpl_options.specs.Options.{PlainOptions};
ghost use Rattle.dpl_report.specs.Plain.{PlainReport};
ghost use Rattle.dpl_layer.specs.declared.error.LayerError.{LayerError};
ghost use Rattle.dpl_layer.specs.declared.drawing.Drawing.{Drawing};
ghost use Rattle.dpl_layer.specs.Drawings.{Cells, IsDrawingOf, drawing_reasons};
ghost use Rattle.dpl_layer.specs.Reasons.{FirstOf, NoneOf};
ghost use Rattle.dpl_core.specs.Reports.{IsReportOfCells, IsSplit, IsBalancedSplit, IsRefinedSplit};
ghost use Rattle.dpl_check.specs.Checked.{IsAcceptedOf};
ghost use Rattle.dpl_words.specs.Commands.{asked_by};
ghost use Rattle.dpl_words.specs.Scripts.{IsFirstBad};
ghost use Rattle.dpl_run.specs.Inputs.{reads_layout};
ghost use Rattle.dpl_run.specs.Answer.{Answers, IsDue, IsDueOf, IsQuiet, IsStatusOf};
ghost use Rattle.dpl_run.specs.Devices.{AreSteady, AreTold, AsksFor, IsReadFault, IsTouched, PassesBytes};
ghost use Rattle.dpl_run.specs.Deciding.{GoByCells};
ghost use Rattle.dpl_run.specs.Errors.{status_of};
ghost use Rattle.dpl_run.specs.Lines.{load_line, yes_line};
ghost use Rattle.dpl_run.specs.due.Cross.{ShowsBar, ShowsCrossing};
ghost use Rattle.dpl_run.specs.due.Edit.{IsEditDue, IsFollowed, begun_with, edits_reasons};
ghost use Rattle.dpl_run.specs.due.Load.{loaded_line};
ghost use Rattle.dpl_run.specs.declared.status.Status.{Status};
ghost use Rattle.dpl_run.specs.declared.status.Status.TheVariants.{Done, Rejected, Usage, Limit, Script, NoMemory, ReadFault, WriteFault};

use dpl_words::{Command, Work};

/// That a place lies in a stretch, or a cell in a box, is the same as a test and as a fact.
pub fn cells_are_tested()
    ensures places { (a b x : ℤ) → is_within a b x ≡ true ↔ IsWithin a b x }
    ensures cells { (r : Corners) (x y : ℤ) → is_in_box r x y ≡ true ↔ IsIn r x y }
{}

/// Devices that tell: a layout that is left, and a text that is the first of its name. A made layout needs none.
pub fn devices_tell()
    ensures split { (o : PlainOptions) (text second : List ℕ) (texts : Option Texts) →
        AreTold (Ok (Command.Layout o Work.Split)) (Some text) texts text second }
    ensures balance { (o : PlainOptions) (text second : List ℕ) (texts : Option Texts) →
        AreTold (Ok (Command.Layout o Work.Balance)) (Some text) texts text second }
    ensures refine { (o : PlainOptions) (text second : List ℕ) (texts : Option Texts) →
        AreTold (Ok (Command.Layout o Work.Refine)) (Some text) texts text second }
    ensures cross { (o : PlainOptions) (text second : List ℕ) (texts : Option Texts) →
        AreTold (Ok (Command.Layout o Work.Cross)) (Some text) texts text second }
    ensures check { (o : PlainOptions) (name text second : List ℕ) (others : Texts) →
        AreTold (Ok (Command.Layout o (Work.Check name))) (Some text)
        (Some ((name, second) ∷ others)) text second }
    ensures edit { (o : PlainOptions) (name text second : List ℕ) (others : Texts) →
        AreTold (Ok (Command.Layout o (Work.Edit name))) (Some text)
        (Some ((name, second) ∷ others)) text second }
    ensures load { (start rows columns : ℕ) (left : Option (List ℕ)) (texts : Option Texts)
        (text second : List ℕ) →
        AreTold (Ok (Command.Load start rows columns)) left texts text second }
    ensures wrong_words { (kind : ℕ) (left : Option (List ℕ)) (texts : Option Texts)
        (text second : List ℕ) → AreTold (Err kind) left texts text second }
{}

/// What is due for wrong words.
pub fn wrong_words_are_due()
    ensures { (kind : ℕ) (text second output : List ℕ) (status : Status) →
        IsDueOf (Err kind) text second status output ↔ ((status ≡ Usage kind) × (output ≡ [])) }
{}

/// At most one status is due, and what is due is answered, but for a failed read, want of memory, and a failed write where
/// an output was due.
pub fn one_due()
    ensures once { (words : List (List ℕ)) (text second output other : List ℕ)
        (due also : Status) → IsDue words text second due output →
        IsDue words text second also other → due ≡ also }
    ensures answered { (words : List (List ℕ)) (text second output : List ℕ)
        (before now : Option (List ℕ)) (due result : Status) →
        IsDue words text second due output → Answers (IsDue words text second) before now result →
        result ≢ ReadFault → (result ≡ due) ⊎ (result ≡ NoMemory) ⊎
        ((result ≡ WriteFault) × (due ≡ Done)) }
{}

/// Some status is due for words that are none, for a text that has too many bytes, and for a layout that is not drawn:
/// one that breaks a rule, or has too many primitives or calls or a coordinate that is too great. Elsewhere the cells
/// decide what is due.
pub fn some_due()
    ensures { (command : Result Command ℕ) (text second : List ℕ) →
        ((status : Status) × (output : List ℕ) × IsDueOf command text second status output)
        ⊎ GoByCells command text second }
{}

/// A split that is done wrote the text of a report of the layer, of whose net no pair of masks costs less than the bound
/// says; so did a balanced one, whose masks cover about the same area, and a refined one wrote a refined report.
pub fn split_is_least()
    ensures split { (words : List (List ℕ)) (o : PlainOptions) (text second taken : List ℕ)
        (now : Option (List ℕ)) → asked_by words ≡ Ok (Command.Layout o Work.Split) →
        Answers (IsDue words text second) (Some taken) now Done →
        (output : List ℕ) × (now ≡ Some (taken ++ output)) × IsSplit o text output }
    ensures balance { (words : List (List ℕ)) (o : PlainOptions) (text second taken : List ℕ)
        (now : Option (List ℕ)) → asked_by words ≡ Ok (Command.Layout o Work.Balance) →
        Answers (IsDue words text second) (Some taken) now Done →
        (output : List ℕ) × (now ≡ Some (taken ++ output)) × IsBalancedSplit o text output }
    ensures balanced { (o : PlainOptions) (text output : List ℕ) →
        IsBalancedSplit o text output → IsSplit o text output }
    ensures refine { (words : List (List ℕ)) (o : PlainOptions) (text second taken : List ℕ)
        (now : Option (List ℕ)) → asked_by words ≡ Ok (Command.Layout o Work.Refine) →
        Answers (IsDue words text second) (Some taken) now Done →
        (output : List ℕ) × (now ≡ Some (taken ++ output)) × IsRefinedSplit o text output }
{}

/// A check that is done wrote the cost and the bound of the report: its masks are those of the layer and cost so much, and
/// every pair of masks costs at least half the bound.
pub fn yes_is_accepted()
    ensures { (words : List (List ℕ)) (o : PlainOptions) (name text report taken : List ℕ)
        (now : Option (List ℕ)) → asked_by words ≡ Ok (Command.Layout o (Work.Check name)) →
        Answers (IsDue words text report) (Some taken) now Done → (cost : ℕ) × (bound : ℕ) ×
        (now ≡ Some (taken ++ yes_line cost bound)) × IsAcceptedOf o text report cost bound }
{}

/// `cross` shows an edge and what its link crosses, and says that there is none only where no link
/// of an edge crosses anything. It shows a bar of the first edge that is set aside, and says that
/// there is none exactly where the whole drawing is plane.
pub fn crossings_are_shown()
    ensures crossing { (f : Fragments) (net : Net) (c : Crossing) → ShowsCrossing f net (Some c) ↔
        ((c.edge < length net.graph.edges) × IsWith f net c.edge c.other) }
    ensures no_crossing { (f : Fragments) (net : Net) → ShowsCrossing f net None ↔
        ((e : ℕ) (other : With) → e < length net.graph.edges → ¬ IsWith f net e other) }
    ensures bar { (net : Net) (bar : Bar) → ShowsBar net (Some bar) ↔
        (((others : List ℕ) × (aside_edges net ≡ bar.edge ∷ others)) × IsBar net bar) }
    ensures no_bar { (net : Net) → ShowsBar net None ↔ (excess net all_edges ≡ 0) }
{}

/// `edit` is done exactly where all lines of the script are taken, with the text of a report of the
/// content after the last line.
pub fn scripts_are_followed()
    ensures { (o : PlainOptions) (text script output : List ℕ) →
        IsEditDue o text script Done output ↔ IsFollowed o text script output }
{}

/// What is told first: that the layout is too long, that the text beside it is, that the layout has no drawing or its content
/// no report, and then that a line of the script is not of the form. Each is due whatever is told after it.
pub fn refusals_are_in_order()
    ensures layout { (c : Command) (text second : List ℕ) → reads_layout c ≡ true →
        MOST_LAYOUT_BYTES < length text →
        IsDueOf (Ok c) text second (Limit 1 (MOST_LAYOUT_BYTES + 1)) [] }
    ensures report { (o : PlainOptions) (name text second : List ℕ) →
        length text ≤ MOST_LAYOUT_BYTES → MOST_REPORT_BYTES < length second →
        IsDueOf (Ok (Command.Layout o (Work.Check name))) text second
        (Limit 9 (MOST_REPORT_BYTES + 1)) [] }
    ensures script { (o : PlainOptions) (name text second : List ℕ) →
        length text ≤ MOST_LAYOUT_BYTES → MOST_SCRIPT_BYTES < length second →
        IsDueOf (Ok (Command.Layout o (Work.Edit name))) text second
        (Limit 10 (MOST_SCRIPT_BYTES + 1)) [] }
    ensures drawing { (o : PlainOptions) (text script : List ℕ) (e : LayerError) →
        FirstOf (drawing_reasons o text) e → IsEditDue o text script (status_of e) [] }
    ensures content { (o : PlainOptions) (text script : List ℕ) (d : Drawing) (e : LayerError) →
        IsDrawingOf o text d → FirstOf (edits_reasons (begun_with o d)) e →
        IsEditDue o text script (status_of e) [] }
    ensures line { (o : PlainOptions) (text script : List ℕ) (d : Drawing) (line : ℕ) →
        IsDrawingOf o text d → NoneOf (edits_reasons (begun_with o d)) → IsFirstBad script line →
        IsEditDue o text script (Script line 1) [] }
{}

/// `load` tells how many nodes the net of its layout has, and how many edges, of whatever kind.
pub fn loads_tell_the_net()
    ensures { (o : PlainOptions) (r : PlainReport) (cells kept : Cells)
        (of : IsReportOfCells o r cells kept) →
        loaded_line r ≡ load_line of.net.graph.nodes (length of.net.graph.edges) r.head.cost
        r.head.bound (length r.lists.aside) }
{}

/// What a sink took that tells it: all that is due with a status, a front of that where a write
/// failed, and nothing where the run ends otherwise. The status is due also where it does not tell.
pub fn outputs_are_taken()
    ensures due { (words : List (List ℕ)) (text second taken taken_now : List ℕ)
        (status : Status) → status ≢ ReadFault → status ≢ WriteFault → status ≢ NoMemory →
        Answers (IsDue words text second) (Some taken) (Some taken_now) status ↔
        ((output : List ℕ) × IsDue words text second status output ×
        (taken_now ≡ taken ++ output)) }
    ensures status { (words : List (List ℕ)) (text second : List ℕ) (before now : Option (List ℕ))
        (status : Status) → status ≢ ReadFault → status ≢ WriteFault → status ≢ NoMemory →
        Answers (IsDue words text second) before now status →
        (output : List ℕ) × IsDue words text second status output }
    ensures cut { (words : List (List ℕ)) (text second taken taken_now : List ℕ) →
        Answers (IsDue words text second) (Some taken) (Some taken_now) WriteFault →
        (front : List ℕ) × (rest : List ℕ) × IsDue words text second Done (front ++ rest) ×
        (taken_now ≡ taken ++ front) }
    ensures quiet { (taken taken_now : List ℕ) (status : Status) → status ≢ Done →
        status ≢ WriteFault →
        IsQuiet (Some taken) (Some taken_now) status ↔ (taken_now ≡ taken) }
{}

/// Where a read fault is answered, a call failed by which a text of the command is read, and the report was asked for
/// by its name.
pub fn read_faults_have_causes()
    ensures split { (o : PlainOptions) (layout layout_now second second_now : Seen) →
        layout.faults < last_count →
        IsReadFault (Ok (Command.Layout o Work.Split)) layout layout_now second second_now
        ↔ (layout.faults < layout_now.faults) }
    ensures balance { (o : PlainOptions) (layout layout_now second second_now : Seen) →
        layout.faults < last_count →
        IsReadFault (Ok (Command.Layout o Work.Balance)) layout layout_now second second_now
        ↔ (layout.faults < layout_now.faults) }
    ensures refine { (o : PlainOptions) (layout layout_now second second_now : Seen) →
        layout.faults < last_count →
        IsReadFault (Ok (Command.Layout o Work.Refine)) layout layout_now second second_now
        ↔ (layout.faults < layout_now.faults) }
    ensures cross { (o : PlainOptions) (layout layout_now second second_now : Seen) →
        layout.faults < last_count →
        IsReadFault (Ok (Command.Layout o Work.Cross)) layout layout_now second second_now
        ↔ (layout.faults < layout_now.faults) }
    ensures check { (o : PlainOptions) (name : List ℕ)
        (layout layout_now second second_now : Seen) → layout.faults < last_count →
        second.faults < last_count →
        IsReadFault (Ok (Command.Layout o (Work.Check name))) layout layout_now second second_now
        ↔ ((layout.faults < layout_now.faults) ⊎ ((second.faults < second_now.faults) ×
        (second_now.asked ≡ second.asked ++ name ∷ []))) }
    ensures edit { (o : PlainOptions) (name : List ℕ)
        (layout layout_now second second_now : Seen) → layout.faults < last_count →
        second.faults < last_count →
        IsReadFault (Ok (Command.Layout o (Work.Edit name))) layout layout_now second second_now
        ↔ ((layout.faults < layout_now.faults) ⊎ ((second.faults < second_now.faults) ×
        (second_now.asked ≡ second.asked ++ name ∷ []))) }
    ensures load { (start rows columns : ℕ) (layout layout_now second second_now : Seen) →
        ¬ IsReadFault (Ok (Command.Load start rows columns)) layout layout_now second second_now }
    ensures wrong_words { (kind : ℕ) (layout layout_now second second_now : Seen) →
        ¬ IsReadFault (Err kind) layout layout_now second second_now }
{}

/// One more byte than the limit was read, and no more.
pub fn one_byte_more_is_read()
    ensures { (most count : ℕ) (before now : Seen) → before.given + most ≤ last_count →
        PassesBytes most count before now ↔ ((count ≡ most) × (now.given ≡ before.given + most)) }
{}

/// A command leaves the devices as they were that it does not read, and asks the shelf for no name but its own, once.
pub fn devices_are_left()
    ensures split { (o : PlainOptions) (layout layout_now second second_now : Seen) →
        IsTouched (Ok (Command.Layout o Work.Split)) layout layout_now second second_now
        ↔ ((layout_now.asked ≡ layout.asked) × (second_now ≡ second)) }
    ensures balance { (o : PlainOptions) (layout layout_now second second_now : Seen) →
        IsTouched (Ok (Command.Layout o Work.Balance)) layout layout_now second second_now
        ↔ ((layout_now.asked ≡ layout.asked) × (second_now ≡ second)) }
    ensures refine { (o : PlainOptions) (layout layout_now second second_now : Seen) →
        IsTouched (Ok (Command.Layout o Work.Refine)) layout layout_now second second_now
        ↔ ((layout_now.asked ≡ layout.asked) × (second_now ≡ second)) }
    ensures cross { (o : PlainOptions) (layout layout_now second second_now : Seen) →
        IsTouched (Ok (Command.Layout o Work.Cross)) layout layout_now second second_now
        ↔ ((layout_now.asked ≡ layout.asked) × (second_now ≡ second)) }
    ensures check { (o : PlainOptions) (name : List ℕ)
        (layout layout_now second second_now : Seen) →
        IsTouched (Ok (Command.Layout o (Work.Check name))) layout layout_now second second_now
        ↔ ((layout_now.asked ≡ layout.asked) × AsksFor name second second_now) }
    ensures edit { (o : PlainOptions) (name : List ℕ)
        (layout layout_now second second_now : Seen) →
        IsTouched (Ok (Command.Layout o (Work.Edit name))) layout layout_now second second_now
        ↔ ((layout_now.asked ≡ layout.asked) × AsksFor name second second_now) }
    ensures load { (start rows columns : ℕ) (layout layout_now second second_now : Seen) →
        IsTouched (Ok (Command.Load start rows columns)) layout layout_now second second_now
        ↔ ((layout_now ≡ layout) × (second_now ≡ second)) }
    ensures wrong_words { (kind : ℕ) (layout layout_now second second_now : Seen) →
        IsTouched (Err kind) layout layout_now second second_now
        ↔ ((layout_now ≡ layout) × (second_now ≡ second)) }
    ensures asked { (name : List ℕ) (before now : Seen) (others : List (List ℕ)) →
        now.asked ≡ before.asked ++ others →
        AsksFor name before now ↔ ((others ≡ []) ⊎ (others ≡ name ∷ [])) }
    ensures steady { (layout layout_now second second_now : Seen) (out out_now : ℕ) →
        layout.faults < layout_now.faults ⊎ second.faults < second_now.faults ⊎ out < out_now →
        ¬ AreSteady layout layout_now second second_now out out_now }
{}

/// Words are wrong exactly where the answer says so, but for want of memory; `check` alone rejects and has a limit on its
/// report, `edit` alone names a line and has a limit on its script, and 8 names no limit. No device is asked for that.
pub fn words_leave_statuses()
    ensures wrong_words { (kind : ℕ) (status : Status) → IsStatusOf (Err kind) status →
        status ≢ NoMemory → status ≡ Usage kind }
    ensures right_words { (c : Command) (kind : ℕ) → ¬ IsStatusOf (Ok c) (Usage kind) }
    ensures rejected { (c : Command) (reason place : ℕ) (found wanted : ℤ) →
        IsStatusOf (Ok c) (Rejected reason place found wanted) →
        (o : PlainOptions) × (name : List ℕ) × (c ≡ Command.Layout o (Work.Check name)) }
    ensures report { (c : Command) (count : ℕ) → IsStatusOf (Ok c) (Limit 9 count) →
        (o : PlainOptions) × (name : List ℕ) × (c ≡ Command.Layout o (Work.Check name)) }
    ensures script { (c : Command) (count : ℕ) → IsStatusOf (Ok c) (Limit 10 count) →
        (o : PlainOptions) × (name : List ℕ) × (c ≡ Command.Layout o (Work.Edit name)) }
    ensures line { (c : Command) (line kind : ℕ) → IsStatusOf (Ok c) (Script line kind) →
        (o : PlainOptions) × (name : List ℕ) × (c ≡ Command.Layout o (Work.Edit name)) }
    ensures eight { (c : Command) (count : ℕ) → ¬ IsStatusOf (Ok c) (Limit 8 count) }
    ensures limits { (c : Command) (kind count : ℕ) → IsStatusOf (Ok c) (Limit kind count) →
        (1 ≤ kind) × (kind ≤ 10) }
{}
