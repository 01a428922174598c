// What holds of a net and of a net of some of its components.
ghost use Rattle.std.specs.Prelude.{◌≡◌, ◌↔◌, ◌<◌, ℕ, Bool, List, length};
ghost use Rattle.dpl_sign.specs.declared.nets.Net.{Net};
ghost use Rattle.dpl_sign.specs.Colourings.{IsColouring, colour_of};
ghost use Rattle.dpl_sign.specs.Drawings.{is_in, dart_count};
ghost use Rattle.dpl_sign.specs.Excess.{kept_edges};
ghost use Rattle.dpl_sign.specs.Parity.{is_odd_face};
ghost use Rattle.dpl_parts.specs.Parts.{IsPartOf, dart, face_at, AreOfOneKeptPart, IsBest, IsMixed, broken_on};

/// Which edges of a component are kept, which darts lie on one face and whether a face is odd is told by the component
/// alone: `keep`, `faces`, `odd`. So is which of its faces are of one part of the dual: `links` says that they are, and
/// `others` that no face of another component is. Facts about the definitions; nothing runs.
pub fn component_rules()
    ensures keep { (part whole : Net) (node edge : ℕ → ℕ) → IsPartOf part whole node edge →
        (e : ℕ) → e < length part.graph.edges →
        is_in (kept_edges whole) (edge e) ≡ is_in (kept_edges part) e }
    ensures faces { (part whole : Net) (node edge : ℕ → ℕ) → IsPartOf part whole node edge →
        (c d : ℕ) → c < dart_count part → d < dart_count part →
        face_at whole (dart edge c) ≡ face_at whole (dart edge d) ↔
        face_at part c ≡ face_at part d }
    ensures odd { (part whole : Net) (node edge : ℕ → ℕ) → IsPartOf part whole node edge →
        (c : ℕ) → c < dart_count part →
        is_odd_face whole (is_in (kept_edges whole)) (face_at whole (dart edge c))
        ≡ is_odd_face part (is_in (kept_edges part)) (face_at part c) }
    ensures links { (part whole : Net) (node edge : ℕ → ℕ) → IsPartOf part whole node edge →
        (f g : ℕ) → AreOfOneKeptPart part f g →
        AreOfOneKeptPart whole (face_at whole (dart edge f)) (face_at whole (dart edge g)) }
    ensures others { (part whole : Net) (node edge : ℕ → ℕ) → IsPartOf part whole node edge →
        (f k : ℕ) → f < dart_count part → face_at part f ≡ f →
        AreOfOneKeptPart whole (face_at whole (dart edge f)) k →
        (g : ℕ) × (g < dart_count part) × (face_at part g ≡ g)
        × AreOfOneKeptPart part f g × (face_at whole (dart edge g) ≡ k) }
{}

/// Where two nets share components, the best colours of the one, laid on these over the best colours of the other, are
/// a colouring there too and break kept edges of the same weight. So an optimum stays where its component stays.
pub fn optima_stay()
    ensures { (part old new : Net) (node edge node' edge' : ℕ → ℕ) →
        IsPartOf part old node edge → IsPartOf part new node' edge' →
        (before after mixed : List Bool) →
        IsColouring old.graph before → IsColouring new.graph after →
        IsBest old before → IsBest new after →
        length mixed ≡ new.graph.nodes →
        IsMixed part new node' after (λ v. colour_of before (node v)) mixed →
        IsColouring new.graph mixed × (broken_on new mixed ≡ broken_on new after) }
{}
