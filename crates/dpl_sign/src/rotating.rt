// The rotation: which dart comes next around a node.
ghost use Rattle.std.specs.Prelude.{◌≡◌, ◌+◌, ◌*◌, ◌<◌, length, if◌then◌else◌};
ghost use Rattle.dpl_sign.specs.Drawings.{dart_count, is_in as in_set, is_before as stands_before, is_met_before as met_before, first_met as met_first, next_around as next_of};

use crate::darts::{is_in, port, tail, twin};
use crate::nets::Net;
use crate::order::port_order;

/// Whether one dart of a node stands before another.
fn is_before(net: &Net, dart: u32, other: u32) -> bool
    requires first { dart < dart_count net.now }
    requires second { other < dart_count net.now }
    ensures { result ≡ stands_before net.now dart other }
{
    port_order(&port(net, dart), dart / 2, &port(net, other), other / 2).is_lt()
}

/// Whether one dart is met before another, turning counterclockwise.
pub fn is_met_before(net: &Net, from: u32, dart: u32, other: u32) -> bool
    requires from { from < dart_count net.now }
    requires first { dart < dart_count net.now }
    requires second { other < dart_count net.now }
    ensures { result ≡ met_before net.now from dart other }
{
    let reached = is_before(net, from, dart);
    let nearer = is_before(net, dart, other);
    if is_before(net, from, other) {
        reached && nearer
    } else {
        reached || nearer
    }
}

fn first_met(net: &Net, from: u32, dart: u32, other: u32) -> u32
    requires from { from < dart_count net.now }
    requires first { dart < dart_count net.now }
    requires second { other < dart_count net.now }
    ensures value { result ≡ met_first net.now from dart other }
    ensures range { result < dart_count net.now }
{
    let here = tail(&net.graph, dart) == tail(&net.graph, from);
    if here && is_met_before(net, from, dart, other) {
        dart
    } else {
        other
    }
}

/// The first of two darts of an edge, if it is in the set, and of one that is first so far.
fn first_with(net: &Net, set: &[bool], edge: u32, from: u32, next: u32) -> u32
    requires from { from < dart_count net.now }
    requires edge { edge < length net.now.graph.edges }
    requires next { next < dart_count net.now }
    ensures value { result ≡ (if in_set set.now edge
        then met_first net.now from (2 * edge + 1) (met_first net.now from (2 * edge) next)
        else next) }
    ensures range { result < dart_count net.now }
{
    if is_in(set, edge) {
        let even = first_met(net, from, 2 * edge, next);
        first_met(net, from, 2 * edge + 1, even)
    } else {
        next
    }
}

/// The next dart of the set counterclockwise around the node that a dart leaves. Looks at each edge.
pub fn next_around(net: &Net, set: &[bool], dart: u32) -> u32
    requires { dart < dart_count net.now }
    ensures value { result ≡ next_of net.now (in_set set.now) dart }
    ensures range { result < dart_count net.now }
{
    let mut next = dart;
    for edge in 0..net.graph.edges.as_slice().len() as u32 {
        next = first_with(net, set, edge, dart, next);
    }
    next
}
