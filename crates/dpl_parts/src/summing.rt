// What holds of a net and of the parts that share it out.
ghost use Rattle.std.specs.Prelude.{◌≡◌, ◌<◌, ℕ, Bool, List, length, sum_by, All};
ghost use Rattle.dpl_cycle.specs.Sums.{count_on};
ghost use Rattle.dpl_sign.specs.declared.nets.Net.{Net};
ghost use Rattle.dpl_sign.specs.Colourings.{IsColouring, cost_of};
ghost use Rattle.dpl_sign.specs.Drawings.{is_in, dart_count, face_count};
ghost use Rattle.dpl_sign.specs.Excess.{all_edges, excess, kept_edges};
ghost use Rattle.dpl_sign.specs.Packings.{IsPacking, bound_of};
ghost use Rattle.dpl_sign.specs.Parity.{is_odd_face};
ghost use Rattle.dpl_parts.specs.Parts.{dart, face_at, AreOfOneKeptPart, IsPartOf, broken_on};
ghost use Rattle.dpl_parts.specs.Shares.{Part, ShareOut, AgreeWith, AreTogether, all_cycles};

/// A net is the sum of parts that share it out: its nodes, faces, odd faces and excess, what a colouring costs and the
/// weight of the kept edges that it breaks. Colourings of the parts colour the whole, and packings of the parts behind
/// one another are a packing of the whole with the sum of their bounds. A face of a part is a face of the whole with the
/// same name, and faces that neighbours link in the whole are linked in one of the parts. Facts about the definitions;
/// nothing runs.
pub fn sum_rules()
    ensures nodes { (whole : Net) (parts : List Part) → ShareOut whole parts →
        whole.graph.nodes ≡ sum_by (λ p. p.net.graph.nodes) parts }
    ensures faces { (whole : Net) (parts : List Part) → ShareOut whole parts →
        face_count whole (is_in (kept_edges whole))
        ≡ sum_by (λ p. face_count p.net (is_in (kept_edges p.net))) parts }
    ensures odd_faces { (whole : Net) (parts : List Part) → ShareOut whole parts →
        count_on (is_odd_face whole (is_in (kept_edges whole))) (dart_count whole)
        ≡ sum_by (λ p. count_on (is_odd_face p.net (is_in (kept_edges p.net))) (dart_count p.net))
        parts }
    ensures excess { (whole : Net) (parts : List Part) → ShareOut whole parts →
        excess whole all_edges ≡ sum_by (λ p. excess p.net all_edges) parts }
    ensures cost { (whole : Net) (parts : List Part) → ShareOut whole parts →
        (colours : List Bool) → AgreeWith colours parts →
        cost_of whole.graph colours ≡ sum_by (λ p. cost_of p.net.graph p.colours) parts }
    ensures broken { (whole : Net) (parts : List Part) → ShareOut whole parts →
        (colours : List Bool) → AgreeWith colours parts →
        broken_on whole colours ≡ sum_by (λ p. broken_on p.net p.colours) parts }
    ensures colouring { (whole : Net) (parts : List Part) → ShareOut whole parts →
        (colours : List Bool) → length colours ≡ whole.graph.nodes → AgreeWith colours parts →
        All (λ p. IsColouring p.net.graph p.colours) parts → IsColouring whole.graph colours }
    ensures packing { (whole : Net) (parts : List Part) → ShareOut whole parts →
        All (λ p. IsPacking p.net.graph p.cycles) parts →
        IsPacking whole.graph (all_cycles parts) }
    ensures bound { (parts : List Part) →
        bound_of (all_cycles parts) ≡ sum_by (λ p. bound_of p.cycles) parts }
    ensures count { (parts : List Part) →
        length (all_cycles parts) ≡ sum_by (λ p. length p.cycles) parts }
    ensures names { (part : Part) (whole : Net) → IsPartOf part.net whole part.node part.edge →
        (c : ℕ) → c < dart_count part.net →
        face_at whole (dart part.edge c) ≡ dart part.edge (face_at part.net c) }
    ensures together { (whole : Net) (parts : List Part) → ShareOut whole parts →
        (f g : ℕ) → f < dart_count whole → face_at whole f ≡ f → AreOfOneKeptPart whole f g →
        AreTogether parts f g }
{}
