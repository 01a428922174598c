// What holds of reports that say the truth.
ghost use Rattle.std.specs.Prelude.{◌≡◌, ◌↔◌, ◌≤◌, ◌<◌, ◌*◌, ◌&&◌, ℕ, ℤ, Bool, true, false, List, [], ◌++◌, codes, length, map, None, All, Any, IsTrue};
ghost use Rattle.dpl_limits.specs.declared.TheConstants.{MOST_EDGES};
ghost use Rattle.dpl_cell.specs.Places.{Corners, corners_of};
ghost use Rattle.dpl_cell.specs.Cells.{IsIn};
ghost use Rattle.dpl_cell.specs.Gaps.{cell_gap2};
ghost use Rattle.dpl_cell.specs.Shapes.{AreOneShape};
ghost use Rattle.dpl_cuts.specs.Positions.{rect_at};
ghost use Rattle.dpl_sign.specs.declared.edges.Kind.{Kind};
ghost use Rattle.dpl_sign.specs.Walks.{edge_at};
ghost use Rattle.dpl_sign.specs.Colourings.{breaks};
ghost use Rattle.dpl_links.specs.Spacing.{AreTooClose};
ghost use Rattle.dpl_boxes.specs.Drawings.{HasBoxes, is_in_boxes};
ghost use Rattle.dpl_links.specs.Nets.{IsNet};
ghost use Rattle.dpl_report.specs.Plain.{PlainReport, plain_report};
ghost use Rattle.dpl_report.specs.ReportLines.{report_text};
ghost use Rattle.dpl_report.specs.Valid.{IsReport};
ghost use Rattle.dpl_good.specs.Truths.{SaysTrue};
ghost use Rattle.dpl_good.specs.Verdicts.{refusal_of, IsGood};
ghost use Rattle.dpl_good.specs.MaskCells.{AreCutFrom, AreMasksOf, AreOnOneMask, DrawSameMasks, HoldsCell, JoinsPieces, ShowsZone, TellsClose};
ghost use Rattle.dpl_good.specs.Facts.{AreNineFacts};
ghost use Rattle.dpl_cuts.specs.Fragments.{AreFragments};

use dpl_cuts::types::Fragments;
use dpl_options::Options;
use dpl_report::Report;
use dpl_sign::Net;

/// A report that says the truth is good. It is a fact about the definitions; nothing runs.
pub fn true_reports_are_good(options: &Options, fragments: &Fragments, net: &Net, report: &Report)
    requires { SaysTrue options.now fragments.now net.now (plain_report report.now) }
    ensures { refusal_of options.now fragments.now net.now (plain_report report.now) ≡ None }
{}

/// A report that says the truth of a net within the limits is valid, so it has a text.
pub fn true_reports_are_valid(options: &Options, fragments: &Fragments, net: &Net, report: &Report)
    requires truth { SaysTrue options.now fragments.now net.now (plain_report report.now) }
    requires few { length net.now.graph.edges ≤ MOST_EDGES }
    // A keep layer stands behind a corner weight alone.
    requires keep { report.now.params.corner ≡ None → report.now.params.keep ≡ None }
    ensures { IsReport (plain_report report.now) }
{
    options.in_range();
    let _count = u64::from(net.piece_count);
}

/// A good report says the truth, so it says what a colouring breaks and costs, and what a packing bounds.
pub fn good_reports_are_true(options: &Options, fragments: &Fragments, net: &Net, report: &Report)
    requires valid { IsReport (plain_report report.now) }
    requires good { refusal_of options.now fragments.now net.now (plain_report report.now) ≡ None }
    ensures { SaysTrue options.now fragments.now net.now (plain_report report.now) }
{
    options.in_range();
}

/// What the masks of a good report are of the cells of its layer.
pub fn masks_are_of_the_layer(options: &Options, fragments: &Fragments, net: &Net, report: &Report)
    requires valid { IsReport (plain_report report.now) }
    requires good { refusal_of options.now fragments.now net.now (plain_report report.now) ≡ None }
    requires net { IsNet fragments.now options.now.weights (2 * options.now.space) net.now }
    ensures { (cells : ℤ → ℤ → Bool) (tiles : List Corners) →
        AreCutFrom options.now cells tiles fragments.now →
        AreMasksOf options.now cells tiles fragments.now net.now (plain_report report.now) }
{
    options.in_range();
}

/// What the lines of the lists show: each cut line the whole zone of its cut, and each clash line two fragments that hold
/// cells of two shapes that are too close and on one mask.
pub fn lines_show_what_is_broken(options: &Options, fragments: &Fragments, net: &Net)
    requires { IsNet fragments.now options.now.weights (2 * options.now.space) net.now }
    ensures cuts { (cells : ℤ → ℤ → Bool) (tiles : List Corners) (r : PlainReport) →
        AreMasksOf options.now cells tiles fragments.now net.now r →
        All (ShowsZone (2 * options.now.overlap) tiles fragments.now) r.lists.cuts }
    ensures clashes { (cells : ℤ → ℤ → Bool) (tiles : List Corners) (r : PlainReport) →
        AreCutFrom options.now cells tiles fragments.now →
        AreMasksOf options.now cells tiles fragments.now net.now r →
        All (TellsClose cells (2 * options.now.space) fragments.now r) r.lists.clashes }
{
    options.in_range();
    let _net = net;
    let _fragments = fragments;
}

/// The lists leave nothing out. Where no clash is listed no two cells of two shapes that are closer than the spacing are on
/// one mask, and where no cut is listed no cell is on both. Each stitch and each clash that the colours break is listed,
/// and each line of a clash names such a one with its ends.
pub fn lists_leave_nothing_out(options: &Options, fragments: &Fragments, net: &Net)
    ensures spacing { (cells : ℤ → ℤ → Bool) (tiles : List Corners) (r : PlainReport) →
        AreMasksOf options.now cells tiles fragments.now net.now r → r.lists.clashes ≡ [] →
        (x y x' y' : ℤ) → IsTrue (cells x y) → IsTrue (cells x' y') →
        ¬ AreOneShape cells x y x' y' →
        cell_gap2 x y x' y' < 2 * options.now.space * (2 * options.now.space) →
        ¬ AreOnOneMask r x y x' y' }
    ensures overlap { (cells : ℤ → ℤ → Bool) (tiles : List Corners) (r : PlainReport) →
        AreMasksOf options.now cells tiles fragments.now net.now r → r.lists.cuts ≡ [] →
        (x y : ℤ) → (is_in_boxes r.on_a x y && is_in_boxes r.on_b x y) ≡ false }
    ensures stitches { (cells : ℤ → ℤ → Bool) (tiles : List Corners) (r : PlainReport) →
        AreMasksOf options.now cells tiles fragments.now net.now r →
        (e : ℕ) → e < length net.now.graph.edges →
        (edge_at net.now.graph e).kind ≡ Kind.Stitch →
        breaks r.head.colours (edge_at net.now.graph e) ≡ true →
        Any (λ z. z.at.edge ≡ e) r.lists.cuts }
    ensures clashes { (cells : ℤ → ℤ → Bool) (tiles : List Corners) (r : PlainReport) →
        AreMasksOf options.now cells tiles fragments.now net.now r →
        (e : ℕ) → e < length net.now.graph.edges →
        (edge_at net.now.graph e).kind ≡ Kind.Clash →
        breaks r.head.colours (edge_at net.now.graph e) ≡ true →
        Any (λ b. b.edge ≡ e) r.lists.clashes }
    ensures lines { (cells : ℤ → ℤ → Bool) (tiles : List Corners) (r : PlainReport) →
        AreMasksOf options.now cells tiles fragments.now net.now r →
        All (λ b. ((edge_at net.now.graph b.edge).kind ≡ Kind.Clash) ×
        (breaks r.head.colours (edge_at net.now.graph b.edge) ≡ true) ×
        (b.a ≡ (edge_at net.now.graph b.edge).a) × (b.b ≡ (edge_at net.now.graph b.edge).b))
        r.lists.clashes }
    ensures told { (cells : ℤ → ℤ → Bool) (tiles : List Corners) (r : PlainReport) →
        AreMasksOf options.now cells tiles fragments.now net.now r →
        (x y x' y' : ℤ) → AreTooClose cells (2 * options.now.space) x y x' y' →
        AreOnOneMask r x y x' y' →
        (i : ℕ) × (j : ℕ) × IsIn (rect_at (map corners_of fragments.now.rects) i) x y ×
        IsIn (rect_at (map corners_of fragments.now.rects) j) x' y' ×
        Any (JoinsPieces net.now.pieces i j) r.lists.clashes }
{
    let _options = options;
    let _net = net;
    let _fragments = fragments;
}

/// A shape stays whole but for its cuts: cells of two fragments that a bond joins are on one mask. The text has the masks, the
/// first on the layer whose name ends with A and the second on that with B.
pub fn masks_are_whole(options: &Options, fragments: &Fragments, net: &Net)
    ensures bonds { (cells : ℤ → ℤ → Bool) (tiles : List Corners) (r : PlainReport) →
        AreMasksOf options.now cells tiles fragments.now net.now r →
        (e : ℕ) (x y x' y' : ℤ) → e < length net.now.graph.edges →
        (edge_at net.now.graph e).kind ≡ Kind.Bond →
        HoldsCell fragments.now (edge_at net.now.graph e).a x y →
        HoldsCell fragments.now (edge_at net.now.graph e).b x' y' → AreOnOneMask r x y x' y' }
    ensures first { (cells : ℤ → ℤ → Bool) (tiles : List Corners) (r : PlainReport) →
        AreMasksOf options.now cells tiles fragments.now net.now r →
        HasBoxes (options.now.layer ++ codes "A") r.on_a (report_text r) }
    ensures second { (cells : ℤ → ℤ → Bool) (tiles : List Corners) (r : PlainReport) →
        AreMasksOf options.now cells tiles fragments.now net.now r →
        HasBoxes (options.now.layer ++ codes "B") r.on_b (report_text r) }
{
    let _options = options;
    let _net = net;
    let _fragments = fragments;
}

/// What is said of the masks of a report leaves no choice but its letters: where two reports have the same letters, their
/// masks are the same cells.
pub fn letters_determine_masks(options: &Options, fragments: &Fragments, net: &Net)
    ensures { (cells : ℤ → ℤ → Bool) (tiles : List Corners) (r s : PlainReport) →
        AreCutFrom options.now cells tiles fragments.now →
        AreMasksOf options.now cells tiles fragments.now net.now r →
        AreMasksOf options.now cells tiles fragments.now net.now s →
        r.head.colours ≡ s.head.colours → DrawSameMasks r s }
{
    options.in_range();
    let _net = net;
    let _fragments = fragments;
}

/// A text is good exactly where the nine facts hold of the report that it is the text of.
pub fn nine_facts_make_good(options: &Options, fragments: &Fragments, net: &Net)
    requires { IsNet fragments.now options.now.weights (2 * options.now.space) net.now }
    ensures { (keep tiles : List Corners) (label text : List ℕ) →
        AreFragments keep (2 * options.now.space) (2 * options.now.overlap) tiles label
        fragments.now →
        IsGood options.now fragments.now net.now text
        ↔ ((r : PlainReport) × AreNineFacts options.now fragments.now net.now text r) }
{
    options.in_range();
    let _net = net;
    let _fragments = fragments;
}
