// What holds of each condition of a good report, of what its lists name, and of what refuses it.
ghost use Rattle.std.specs.Prelude.{◌≡◌, ◌≢◌, ◌↔◌, ◌<◌, ◌≤◌, ℕ, ℤ, Bool, List, length, map, Any, IsTrue};
ghost use Rattle.dpl_cell.specs.Places.{Corners};
ghost use Rattle.dpl_cuts.specs.declared.types.Fragments.{Fragments};
ghost use Rattle.dpl_sign.specs.declared.edges.Kind.{Kind};
ghost use Rattle.dpl_sign.specs.declared.graphs.Signed.{Signed};
ghost use Rattle.dpl_sign.specs.declared.nets.Net.{Net};
ghost use Rattle.dpl_sign.specs.Walks.{edge_at};
ghost use Rattle.dpl_sign.specs.Colourings.{colour_of};
ghost use Rattle.dpl_sign.specs.Excess.{aside_edges};
ghost use Rattle.dpl_options.specs.Options.{PlainOptions};
ghost use Rattle.dpl_report.specs.declared.marks.Broken.{Broken};
ghost use Rattle.dpl_report.specs.Plain.{PlainReport, PlainZone};
ghost use Rattle.dpl_report.specs.ReportLines.{report_text};
ghost use Rattle.dpl_report.specs.Valid.{IsReport};
ghost use Rattle.dpl_good.specs.declared.refusals.Refusal.{Refusal};
ghost use Rattle.dpl_good.specs.Facts.{NameAllAside};
ghost use Rattle.dpl_good.specs.Laws.{OptionsAreTold, CountsAreTold, BondsAreTold, CutsAreTold, ClashesAreTold, CostIsTold, AsideIsTold, WalksAreTold, PackingIsTold, MasksAreTold};
ghost use Rattle.dpl_good.specs.MaskCells.{AreCutFrom, AreToldClose, HoldsCell, IsBrokenEdge, JoinsPieces, NameAllBroken, NamesBroken};
ghost use Rattle.dpl_good.specs.Verdicts.{IsGood, IsNoReport, IsRefusal, FailsLater};

use dpl_options::Options;

/// Each condition of a good report fails nowhere exactly where its fact holds.
pub fn condition_rules()
    ensures options { OptionsAreTold }
    ensures counts { CountsAreTold }
    ensures bonds { BondsAreTold }
    ensures cuts { CutsAreTold }
    ensures clashes { ClashesAreTold }
    ensures cost { CostIsTold }
    ensures aside { AsideIsTold }
    ensures walks { WalksAreTold }
    ensures packing { PackingIsTold }
    ensures masks { MasksAreTold }
{}

/// A stitch is broken where its two fragments have different letters, a clash where they have one.
pub fn letters_break_edges()
    ensures stitches { (g : Signed) (colours : List Bool) (e : ℕ) →
        IsBrokenEdge g colours Kind.Stitch e ↔
        ((e < length g.edges) × ((edge_at g e).kind ≡ Kind.Stitch) ×
        (colour_of colours (edge_at g e).a ≢ colour_of colours (edge_at g e).b)) }
    ensures clashes { (g : Signed) (colours : List Bool) (e : ℕ) →
        IsBrokenEdge g colours Kind.Clash e ↔
        ((e < length g.edges) × ((edge_at g e).kind ≡ Kind.Clash) ×
        (colour_of colours (edge_at g e).a ≡ colour_of colours (edge_at g e).b)) }
{}

/// The lists have no choice: there is one line at a broken edge, one list of the broken clashes and
/// one of the broken stitches, and one of the edges that are set aside.
pub fn lists_are_one()
    ensures lines { (g : Signed) (colours : List Bool) (kind : Kind) (b c : Broken) →
        NamesBroken g colours kind b → NamesBroken g colours kind c → b.edge ≡ c.edge → b ≡ c }
    ensures clashes { (g : Signed) (colours : List Bool) (xs ys : List Broken) →
        NameAllBroken g colours Kind.Clash (λ b. b) xs →
        NameAllBroken g colours Kind.Clash (λ b. b) ys → xs ≡ ys }
    ensures stitches { (g : Signed) (colours : List Bool) (xs ys : List PlainZone) →
        NameAllBroken g colours Kind.Stitch (λ z. z.at) xs →
        NameAllBroken g colours Kind.Stitch (λ z. z.at) ys →
        map (λ z. z.at) xs ≡ map (λ z. z.at) ys }
    ensures aside { (net : Net) (xs : List ℕ) → NameAllAside net xs ↔ (xs ≡ aside_edges net) }
{}

/// One fragment holds each cell of the layer, and none another cell. Two cells are told as close
/// where a clash line joins the pieces of the fragments that hold them.
pub fn one_fragment_holds_a_cell(options: &Options)
    ensures held { (cells : ℤ → ℤ → Bool) (tiles : List Corners) (f : Fragments) →
        AreCutFrom options.now cells tiles f → (x y : ℤ) →
        IsTrue (cells x y) ↔ ((i : ℕ) × HoldsCell f i x y) }
    ensures one { (cells : ℤ → ℤ → Bool) (tiles : List Corners) (f : Fragments) →
        AreCutFrom options.now cells tiles f → (i j : ℕ) (x y : ℤ) → HoldsCell f i x y →
        HoldsCell f j x y → i ≡ j }
    ensures told { (cells : ℤ → ℤ → Bool) (tiles : List Corners) (f : Fragments) (net : Net)
        (r : PlainReport) → AreCutFrom options.now cells tiles f → (x y x' y' : ℤ) →
        AreToldClose f net r x y x' y' ↔ (IsTrue (cells x y) × IsTrue (cells x' y') ×
        ((i j : ℕ) → HoldsCell f i x y → HoldsCell f j x' y' →
        Any (JoinsPieces net.pieces i j) r.lists.clashes)) }
{
    options.in_range();
}

/// A text is refused at one condition, at one place and with one pair of values, or not at all
/// where it is good. It is refused at the first where it is no report's, and at one of the other
/// eight where it is the text of a report.
pub fn one_refusal()
    ensures once { (o : PlainOptions) (f : Fragments) (net : Net) (text : List ℕ)
        (x y : Refusal) → IsRefusal o f net text x → IsRefusal o f net text y → x ≡ y }
    ensures good { (o : PlainOptions) (f : Fragments) (net : Net) (text : List ℕ)
        (x : Refusal) → IsGood o f net text → ¬ IsRefusal o f net text x }
    ensures unread { (text : List ℕ) (x : Refusal) → IsNoReport text x →
        (x.reason ≡ 1) × ((r : PlainReport) → IsReport r → text ≢ report_text r) }
    ensures later { (o : PlainOptions) (f : Fragments) (net : Net) (text : List ℕ)
        (x : Refusal) → FailsLater o f net text x → (2 ≤ x.reason) × (x.reason ≤ 9) ×
        ((r : PlainReport) × IsReport r × (text ≡ report_text r)) }
{}
