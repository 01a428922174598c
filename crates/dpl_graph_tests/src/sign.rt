use dpl_sign::{Edge, Signed, broken, cost, port_order};
use dpl_test_nets::nets::At::{East, North, NorthEast, NorthWest, South, West};
use dpl_test_nets::nets::{At, clash, net, port_of};
use std::alloc::Global;
use std::cmp::Ordering;
use std::test::Fail;

/// What it costs to colour a triangle of clashes so.
fn triangle_cost(alloc: Global, colours: &[bool]) -> Result<u64, Fail> {
    let links = [
        clash(0, 1, 10, East(0), West(0)),
        clash(0, 2, 10, East(0), West(0)),
        clash(1, 2, 10, East(0), West(0)),
    ];
    let net = net(alloc, 3, &links)?;
    if net.graph.nodes as usize != colours.len() {
        return Err("not a colour for each node")?;
    }
    Ok(cost(&net.graph, colours))
}

/// Three clashes of weight 10 around three nodes: one colour for all breaks each, and two break one.
#[test]
fn odd_triangle_costs_ten(rt: HostRuntime) -> Result<(), Fail> {
    assert_eq!(rt; triangle_cost(rt.alloc(), &[false, false, false])?, 30);
    assert_eq!(rt; triangle_cost(rt.alloc(), &[false, true, true])?, 10);
    Ok(())
}

#[test]
fn kinds_break(rt: HostRuntime) {
    let (bond, stitch) = (Edge::bond(0, 1), Edge::stitch(0, 1, 1));
    assert!(rt; !broken(&bond, true, false) && !broken(&bond, true, true));
    assert!(rt; broken(&stitch, true, false) && !broken(&stitch, true, true));
}

/// The order of the ports of two edges with these numbers.
fn order(first: (At, u32), second: (At, u32)) -> Option<Ordering> {
    let first_port = port_of(first.0)?;
    let second_port = port_of(second.0)?;
    Some(port_order(&first_port, first.1, &second_port, second.1))
}

#[test]
fn ports_turn_counterclockwise(rt: HostRuntime) {
    let (less, greater) = (Some(Ordering::Less), Some(Ordering::Greater));
    assert_eq!(rt; order((South(8), 9), (North(-8), 0)), less);
    assert_eq!(rt; order((North(-9), 9), (North(-8), 0)), less);
    assert_eq!(rt; order((NorthEast(2, 1), 9), (NorthEast(1, 2), 0)), less);
    assert_eq!(rt; order((NorthWest(2, 1), 0), (NorthWest(1, 2), 9)), greater);
    assert_eq!(rt; order((North(-8), 3), (North(-8), 4)), less);
}

#[test]
fn bonds_stand_first(rt: HostRuntime) -> Result<(), Fail> {
    let mut edges = Vec::new(rt.alloc());
    edges.push(Edge::clash(0, 1, 1))?;
    edges.push(Edge::bond(0, 1))?;
    assert!(rt; Signed::new(2, edges).is_none());
    Ok(())
}
