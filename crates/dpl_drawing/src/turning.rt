//! Turning around the nodes of a drawing.

ghost use Rattle.std.specs.Prelude.{◌≡◌, ◌<◌, ◌/◌, false};
ghost use Rattle.dpl_sign.specs.Drawings.{dart_count, is_in, tail_of, next_around as next_of};
ghost use Rattle.dpl_drawing.specs.Faces.{AreFaces};
ghost use Rattle.dpl_drawing.specs.Drawn.{IsLast};

use crate::nearness::Nearby;
use dpl_ring::Ring;
use dpl_sign::{Net, is_in as is_kept, is_met_before, next_around, tail, twin};

/// What stands for no dart.
pub const NO_DART: u32 = u32::MAX;

/// The next dart counterclockwise around the node that a new dart leaves, or the dart itself where
/// the node is bare. The search goes both ways around the node from one of its darts, and takes as
/// many steps as lie between. It ends within one turn, and what stands below it is never reached.
fn walk_from(faces: &Ring, net: &Net, kept: &[bool], dart: u32, last: u32) -> u32
    requires faces { AreFaces net.now (is_in kept.now) faces.now }
    requires dart { dart < dart_count net.now }
    requires new { is_in kept.now (dart / 2) ≡ false }
    requires last { IsLast net.now (is_in kept.now) (tail_of net.now.graph dart) last }
    ensures value { result ≡ next_of net.now (is_in kept.now) dart }
    ensures range { result < dart_count net.now }
{
    if last == NO_DART {
        return dart;
    }
    let (mut ahead, mut behind) = (last, last);
    for _step in 0..u32::MAX {
        let after = faces.next(twin(ahead));
        if is_met_before(net, ahead, dart, after) {
            return after;
        }
        ahead = after;
        let before = twin(faces.prev(behind));
        if is_met_before(net, before, dart, behind) {
            return behind;
        }
        behind = before;
    }
    next_around(net, kept, dart)
}

/// Where the search for a new dart starts: at the near dart if it is one of a kept edge at the same
/// node, and otherwise at `last`.
fn start_at(net: &Net, kept: &[bool], dart: u32, last: u32, near: u32) -> u32
    requires dart { dart < dart_count net.now }
    requires last { IsLast net.now (is_in kept.now) (tail_of net.now.graph dart) last }
    ensures { IsLast net.now (is_in kept.now) (tail_of net.now.graph dart) result }
{
    let darts = 2 * net.graph.edges.as_slice().len() as u32;
    if near >= darts {
        return last;
    }
    if !is_kept(kept, near / 2) {
        return last;
    }
    if tail(&net.graph, near) != tail(&net.graph, dart) {
        return last;
    }
    near
}

/// The next dart counterclockwise around the node that a new dart leaves, or the dart itself where
/// the node is bare. The search starts at a dart that was noted nearby, or else at `last`.
pub fn next_from(
    faces: &Ring,
    net: &Net,
    kept: &[bool],
    dart: u32,
    last: u32,
    nearby: &mut Nearby,
) -> u32
    requires faces { AreFaces net.now (is_in kept.now) faces.now }
    requires dart { dart < dart_count net.now }
    requires new { is_in kept.now (dart / 2) ≡ false }
    requires last { IsLast net.now (is_in kept.now) (tail_of net.now.graph dart) last }
    ensures value { result ≡ next_of net.now (is_in kept.now) dart }
    ensures range { result < dart_count net.now }
{
    let wide = start_at(net, kept, dart, last, nearby.in_wide_block(dart));
    let close = start_at(net, kept, dart, wide, nearby.in_block(dart));
    let next = walk_from(faces, net, kept, dart, close);
    nearby.note(dart, next);
    next
}
