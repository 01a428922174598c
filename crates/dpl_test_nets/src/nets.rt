//! Nets from plain numbers, whose conditions are looked at when they are made.

use dpl_sign::{Edge, Kind, Net, Port, Signed};
use std::alloc::{AllocError, Global};
use std::test::Fail;

/// Where an edge leaves a node: at a place on a side, or at a corner in a direction.
#[derive(Clone, Copy)]
pub enum At {
    South(i64),
    East(i64),
    North(i64),
    West(i64),
    SouthWest(u64, u64),
    SouthEast(u64, u64),
    NorthEast(u64, u64),
    NorthWest(u64, u64),
}

/// An edge from the lesser node to the greater one, and where it leaves them.
#[derive(Clone, Copy)]
pub struct Link {
    kind: Kind,
    nodes: (u32, u32),
    weight: u64,
    ends: (At, At),
}

pub fn bond(a: u32, b: u32, at_a: At, at_b: At) -> Link {
    Link {
        kind: Kind::Bond,
        nodes: (a, b),
        weight: 0,
        ends: (at_a, at_b),
    }
}

pub fn stitch(a: u32, b: u32, weight: u64, at_a: At, at_b: At) -> Link {
    Link {
        kind: Kind::Stitch,
        nodes: (a, b),
        weight,
        ends: (at_a, at_b),
    }
}

pub fn clash(a: u32, b: u32, weight: u64, at_a: At, at_b: At) -> Link {
    Link {
        kind: Kind::Clash,
        nodes: (a, b),
        weight,
        ends: (at_a, at_b),
    }
}

fn edge_of(link: &Link) -> Option<Edge> {
    let (a, b) = link.nodes;
    let weight = link.weight;
    if a >= b {
        return None;
    }
    if link.kind == Kind::Bond {
        return Some(Edge::bond(a, b));
    }
    if weight == 0 {
        return None;
    }
    if weight > 1_000_000 {
        return None;
    }
    match link.kind {
        Kind::Stitch => Some(Edge::stitch(a, b, weight)),
        _ => Some(Edge::clash(a, b, weight)),
    }
}

fn corner(side: u8, dx: u64, dy: u64) -> Option<Port> {
    if dx == 0 {
        return None;
    }
    match side {
        0 => Some(Port::at_corner(0, dx, dy)),
        2 => Some(Port::at_corner(2, dx, dy)),
        4 => Some(Port::at_corner(4, dx, dy)),
        _ => Some(Port::at_corner(6, dx, dy)),
    }
}

/// The port, `None` where a corner has no direction.
pub fn port_of(at: At) -> Option<Port> {
    match at {
        At::South(key) => Some(Port::on_side(1, key)),
        At::East(key) => Some(Port::on_side(3, key)),
        At::North(key) => Some(Port::on_side(5, key)),
        At::West(key) => Some(Port::on_side(7, key)),
        At::SouthWest(dx, dy) => corner(0, dx, dy),
        At::SouthEast(dx, dy) => corner(2, dx, dy),
        At::NorthEast(dx, dy) => corner(4, dx, dy),
        At::NorthWest(dx, dy) => corner(6, dx, dy),
    }
}

fn ports_of(link: &Link) -> Option<(Port, Port)> {
    let at_a = port_of(link.ends.0)?;
    let at_b = port_of(link.ends.1)?;
    Some((at_a, at_b))
}

fn all_edges(alloc: Global, links: &[Link]) -> Result<Vec<Edge>, Fail> {
    let mut edges = Vec::new(alloc);
    for link in links {
        edges.push(edge_of(link).ok_or("no edge")?)?;
    }
    Ok(edges)
}

fn all_ports(alloc: Global, links: &[Link]) -> Result<Vec<(Port, Port)>, Fail> {
    let mut ports = Vec::new(alloc);
    for link in links {
        ports.push(ports_of(link).ok_or("no ports")?)?;
    }
    Ok(ports)
}

fn numbers(alloc: Global, count: u32) -> Result<Vec<u32>, AllocError> {
    let mut list = Vec::new(alloc);
    for number in 0..count {
        list.push(number)?;
    }
    Ok(list)
}

/// The net of these links, each node a piece of its own.
pub fn net(alloc: Global, nodes: u32, links: &[Link]) -> Result<Net, Fail> {
    let edges = all_edges(alloc, links)?;
    let graph = Signed::new(nodes, edges).ok_or("no graph")?;
    let ports = all_ports(alloc, links)?;
    let pieces = numbers(alloc, nodes)?;
    Ok(Net::new(graph, ports, pieces, nodes).ok_or("no net")?)
}
