// The loads of edges while walks are laid over them.
ghost use Rattle.std.specs.Prelude.{◌≡◌, ◌∷◌, [], true, map};
ghost use Rattle.dpl_bound.specs.Packed.{AreWithin, HaveRisen};

use dpl_sign::{Edge, Signed};

/// Lays a half weight on one edge, if it has room. A bond takes any, and carries none.
fn lay_one(graph: &Signed, loads: &mut [u64], half: u64, e: u32) -> bool
    requires { AreWithin graph.now loads.old }
    ensures within { AreWithin graph.now loads.new }
    ensures rise { HaveRisen graph.now loads.old [] loads.new }
    ensures laid { result ≡ true → HaveRisen graph.now loads.old ((e, half) ∷ []) loads.new }
{
    let edges = graph.edges.as_slice();
    let place = e as usize;
    if edges.len() <= place {
        return false;
    }
    let edge = &edges[place];
    if edge.kind.is_bond() {
        return true;
    }
    let carried = loads[place];
    if 2 * edge.weight - carried < half {
        return false;
    }
    loads[place] = carried + half;
    true
}

/// Lays a half weight on each passage of a walk, as long as there is room, and tells whether there was. What was laid on the
/// way stays, so loads are too great rather than too small.
pub fn lay(graph: &Signed, loads: &mut [u64], half: u64, walk: &[u32]) -> bool
    requires { AreWithin graph.now loads.old }
    ensures within { AreWithin graph.now loads.new }
    ensures rise { HaveRisen graph.now loads.old [] loads.new }
    ensures laid { result ≡ true →
        HaveRisen graph.now loads.old (map (λ e. (e, half)) walk.now) loads.new }
{
    for k in 0..walk.len() {
        if !lay_one(graph, loads, half, walk[k]) {
            return false;
        }
    }
    true
}
