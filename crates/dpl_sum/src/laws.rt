// What holds of the solutions of a net and of the parts that share it out.
ghost use Rattle.std.specs.Prelude.{◌≡◌, ℕ, Bool, List, ◌∷◌, length, sum_by, All};
ghost use Rattle.dpl_sign.specs.declared.nets.Net.{Net};
ghost use Rattle.dpl_sign.specs.declared.walks.Cycle.{Cycle};
ghost use Rattle.dpl_sign.specs.Colourings.{cost_of};
ghost use Rattle.dpl_sign.specs.Excess.{all_edges, aside_edges, excess};
ghost use Rattle.dpl_sign.specs.Packings.{bound_of};
ghost use Rattle.dpl_parts.specs.Shares.{Part, ShareOut, AgreeWith, all_cycles};
ghost use Rattle.dpl_solve.specs.Named.{odd_faces};
ghost use Rattle.dpl_solve.specs.Solved.{IsSolution, aside_cost, kept_cost};
ghost use Rattle.dpl_sum.specs.Solved.{IsSolved, AreOddTogether, AreInOne, AreSameNets};

/// Solutions of parts that share out a net are a solution of the net: their colours, and their cycles behind one
/// another. Odd faces in one part of its dual are so in one of the parts. A solution stays one where nodes, edges and
/// ports are the same. Facts about the definitions; nothing runs.
pub fn solutions_add_up()
    ensures solved { (whole : Net) (parts : List Part) → ShareOut whole parts → All IsSolved parts →
        (colours : List Bool) → length colours ≡ whole.graph.nodes → AgreeWith colours parts →
        IsSolution whole colours (cost_of whole.graph colours) (aside_edges whole)
        (excess whole all_edges) (all_cycles parts) (bound_of (all_cycles parts)) }
    ensures kept { (whole : Net) (parts : List Part) → ShareOut whole parts →
        (colours : List Bool) → AgreeWith colours parts →
        kept_cost whole colours ≡ sum_by (λ p. kept_cost p.net p.colours) parts }
    ensures aside { (whole : Net) (parts : List Part) → ShareOut whole parts →
        (colours : List Bool) → AgreeWith colours parts →
        aside_cost whole colours ≡ sum_by (λ p. aside_cost p.net p.colours) parts }
    ensures odd { (whole : Net) (parts : List Part) → ShareOut whole parts →
        length (odd_faces whole) ≡ sum_by (λ p. length (odd_faces p.net)) parts }
    ensures in_one { (whole : Net) (parts : List Part) → ShareOut whole parts →
        (f : ℕ) (faces : List ℕ) → AreOddTogether whole (f ∷ faces) → AreInOne parts (f ∷ faces) }
    ensures stays { (old new : Net) → AreSameNets old new → (colours : List Bool) (cost : ℕ)
        (aside : List ℕ) (excess' : ℕ) (cycles : List Cycle) (bound : ℕ) →
        IsSolution old colours cost aside excess' cycles bound →
        IsSolution new colours cost aside excess' cycles bound }
{}
