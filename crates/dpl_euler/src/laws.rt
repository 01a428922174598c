//! What a bar shows, and which edge it bars.
ghost use Rattle.std.specs.Prelude.{◌≡◌, ◌↔◌, ◌+◌, ◌*◌, ◌<◌, ℕ, List, ◌∷◌, Contains};
ghost use Rattle.dpl_sign.specs.Drawings.{dart_count, face_count, face_of, corner_face};
ghost use Rattle.dpl_sign.specs.Components.{component_count};
ghost use Rattle.dpl_sign.specs.Excess.{excess, with_edge, aside_edges, LiesInFace};
ghost use Rattle.dpl_map.specs.Maps.{is_kept};
ghost use Rattle.dpl_euler.specs.declared.types.Bar.{Bar};
ghost use Rattle.dpl_euler.specs.Bars.{IsBar, IsFirstAside};

use dpl_sign::Net;

/// A bar is the whole face at one corner of its edge, and the other corner lies on another face of
/// the component. So with the edge two faces become one, and the excess is no longer 0.
pub fn bars_merge_faces(net: &Net)
    ensures whole { (bar : Bar) → IsBar net.now bar → (d : ℕ) → d < dart_count net.now →
        Contains bar.face d ↔ (face_of net.now (is_kept net.now) d ≡
        corner_face net.now (is_kept net.now) (2 * bar.edge)) }
    ensures apart { (bar : Bar) → IsBar net.now bar →
        ¬ LiesInFace net.now (is_kept net.now) bar.edge }
    ensures faces { (bar : Bar) → IsBar net.now bar →
        face_count net.now (with_edge (is_kept net.now) bar.edge) + 1 ≡
        face_count net.now (is_kept net.now) }
    ensures components { (bar : Bar) → IsBar net.now bar →
        component_count net.now.graph (with_edge (is_kept net.now) bar.edge) ≡
        component_count net.now.graph (is_kept net.now) }
    ensures excess { (bar : Bar) → IsBar net.now bar →
        excess net.now (with_edge (is_kept net.now) bar.edge) ≡ 2 }
{}

/// The first edge that is set aside is the first of the list of them.
pub fn first_aside_is_listed_first(net: &Net)
    ensures { (e : ℕ) → IsFirstAside net.now e ↔
        ((others : List ℕ) × (aside_edges net.now ≡ e ∷ others)) }
{}
