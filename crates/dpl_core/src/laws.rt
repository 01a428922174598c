//! What a tight report says of the masks that cost least.
ghost use Rattle.std.specs.Prelude.{◌≡◌, ◌+◌, ◌*◌, ◌≤◌, ◌==◌, ℕ, Bool, true, List, length, count_by, is_some, All};
ghost use Rattle.dpl_sign.specs.declared.nets.Net.{Net};
ghost use Rattle.dpl_sign.specs.Colourings.{IsColouring, cost_of};
ghost use Rattle.dpl_sign.specs.Drawings.{face_count};
ghost use Rattle.dpl_report.specs.Plain.{PlainReport};
ghost use Rattle.dpl_solve.specs.Named.{keeps, odd_faces};
ghost use Rattle.dpl_solve.specs.Solved.{aside_cost};
ghost use Rattle.dpl_core.specs.Reports.{CostsLeast, IsTight};

/// Every colouring costs at least half the bound, and no tight report costs more than another colouring by more than
/// what it breaks of the edges set aside. Where it breaks none of these, none costs less.
pub fn tight_reports_are_near()
    ensures bound { (net : Net) (r : PlainReport) (colours : List Bool) →
        CostsLeast net r.head r.lists.aside → IsColouring net.graph colours →
        r.head.bound ≤ 2 * cost_of net.graph colours }
    ensures near { (net : Net) (r : PlainReport) (colours : List Bool) →
        IsTight net r → CostsLeast net r.head r.lists.aside → IsColouring net.graph colours →
        r.head.cost ≤ cost_of net.graph colours + aside_cost net r.head.colours }
    ensures least { (net : Net) (r : PlainReport) (colours : List Bool) →
        IsTight net r → CostsLeast net r.head r.lists.aside → IsColouring net.graph colours →
        aside_cost net r.head.colours ≡ 0 → r.head.cost ≤ cost_of net.graph colours }
{}

/// The cycles of a tight report pass no edge that is set aside and none twice, and are no more than the faces of what is
/// kept and twice its odd faces. Such a report has a corner weight.
pub fn tight_reports_have_few_cycles()
    ensures kept { (net : Net) (r : PlainReport) → IsTight net r →
        All (λ c. All (λ e. keeps net e ≡ true) c.walk.edges) r.lists.cycles }
    ensures once { (net : Net) (r : PlainReport) → IsTight net r →
        All (λ c. (e : ℕ) → count_by (λ x. x == e) c.walk.edges ≤ 1) r.lists.cycles }
    ensures few { (net : Net) (r : PlainReport) → IsTight net r →
        length r.lists.cycles ≤ face_count net (keeps net) + 2 * length (odd_faces net) }
    ensures corner { (net : Net) (r : PlainReport) → IsTight net r →
        is_some r.head.params.corner ≡ true }
{}
