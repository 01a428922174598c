use dpl_dual::{Dual, dual};
use dpl_map::build;
use dpl_sign::Net;
use dpl_test_nets::nets::At::{East, North, South, West};
use dpl_test_nets::nets::{Link, bond, clash, net, stitch};
use std::alloc::{AllocError, Global};
use std::process::Abort;
use std::test::Fail;

/// The dual of the map of a net.
pub fn dual_of(alloc: Global, net: &Net) -> Result<Dual, AllocError> {
    let map = build(alloc, net)?;
    dual(alloc, &map, &net.graph)
}

/// The dual of a net with so many nodes and these links.
fn drawn_dual(alloc: Global, nodes: u32, links: &[Link]) -> Result<Dual, Fail> {
    let net = net(alloc, nodes, links)?;
    Ok(dual_of(alloc, &net)?)
}

/// How many faces there are, how many of them are odd, and how many ways lead between them.
fn counts(alloc: Global, nodes: u32, links: &[Link]) -> Result<(u32, usize, usize), Fail> {
    let dual = drawn_dual(alloc, nodes, links)?;
    Ok((
        dual.faces,
        dual.odd.as_slice().len(),
        dual.crosses.as_slice().len(),
    ))
}

/// The faces on both sides, the edge and the length of a way.
fn way(alloc: Global, nodes: u32, links: &[Link], i: usize) -> Result<(u32, u32, u32, u64), Fail> {
    let dual = drawn_dual(alloc, nodes, links)?;
    match dual.crosses.as_slice().get(i) {
        Some(way) => Ok((way.f, way.g, way.edge, way.length)),
        None => Err("no such way")?,
    }
}

/// The part of a face, and `None` where there is no such face.
pub fn part_of(dual: &Dual, face: u32) -> Option<u32> {
    match dual.part.as_slice().get(face as usize) {
        Some(part) => Some(*part),
        None => None,
    }
}

/// Whether two faces are of one part.
fn are_of_one_part(
    alloc: Global,
    nodes: u32,
    links: &[Link],
    f: u32,
    g: u32,
) -> Result<bool, Fail> {
    let dual = drawn_dual(alloc, nodes, links)?;
    Ok(part_of(&dual, f) == part_of(&dual, g))
}

/// Compares the odd faces.
fn compare_odd<R: Abort>(
    rt: &R,
    alloc: Global,
    nodes: u32,
    links: &[Link],
    odd: &[u32],
) -> Result<(), Fail> {
    let dual = drawn_dual(alloc, nodes, links)?;
    assert_eq!(rt; dual.odd.as_slice(), odd);
    Ok(())
}

/// Compares the part of each face.
fn compare_parts<R: Abort>(
    rt: &R,
    alloc: Global,
    nodes: u32,
    links: &[Link],
    part: &[u32],
) -> Result<(), Fail> {
    let dual = drawn_dual(alloc, nodes, links)?;
    assert_eq!(rt; dual.part.as_slice(), part);
    Ok(())
}

/// Three clashes around a triangle.
fn triangle() -> [Link; 3] {
    [
        clash(0, 1, 10, East(0), West(0)),
        clash(0, 2, 10, North(0), West(0)),
        clash(1, 2, 10, North(0), East(0)),
    ]
}

#[test]
fn odd_triangle(rt: HostRuntime) -> Result<(), Fail> {
    let links = triangle();
    assert_eq!(rt; counts(rt.alloc(), 3, &links)?, (2, 2, 3));
    compare_odd(&rt, rt.alloc(), 3, &links, &[0, 1])?;
    compare_parts(&rt, rt.alloc(), 3, &links, &[0, 0])?;
    assert_eq!(rt; way(rt.alloc(), 3, &links, 2)?, (0, 1, 2, 20));
    Ok(())
}

/// One clash, with one face on both sides.
#[test]
fn pair(rt: HostRuntime) -> Result<(), Fail> {
    let links = [clash(0, 1, 10, East(0), West(0))];
    assert_eq!(rt; counts(rt.alloc(), 2, &links)?, (1, 0, 1));
    assert_eq!(rt; way(rt.alloc(), 2, &links, 0)?, (0, 0, 0, 20));
    Ok(())
}

/// Two nodes without an edge, each with a face of its own.
#[test]
fn two_single_nodes(rt: HostRuntime) -> Result<(), Fail> {
    assert_eq!(rt; counts(rt.alloc(), 2, &[])?, (2, 0, 0));
    compare_parts(&rt, rt.alloc(), 2, &[], &[0, 1])?;
    Ok(())
}

/// Clashes and stitches around a square, in turn. Each side passes two clashes.
#[test]
fn ring(rt: HostRuntime) -> Result<(), Fail> {
    let links = [
        clash(0, 1, 4, East(0), West(0)),
        stitch(0, 3, 1, North(0), South(0)),
        stitch(1, 2, 2, North(0), South(0)),
        clash(2, 3, 4, West(0), East(0)),
    ];
    assert_eq!(rt; counts(rt.alloc(), 4, &links)?, (2, 0, 4));
    compare_parts(&rt, rt.alloc(), 4, &links, &[0, 0])?;
    let (_, _, edge, length) = way(rt.alloc(), 4, &links, 1)?;
    assert_eq!(rt; (edge, length), (1, 2));
    Ok(())
}

/// Two odd triangles apart.
#[test]
fn two_parts(rt: HostRuntime) -> Result<(), Fail> {
    let links = [
        clash(0, 1, 5, East(0), West(0)),
        clash(0, 2, 4, North(0), West(0)),
        clash(1, 2, 3, North(0), East(0)),
        clash(3, 4, 7, East(0), West(0)),
        clash(3, 5, 8, North(0), West(0)),
        clash(4, 5, 9, North(0), East(0)),
    ];
    compare_odd(&rt, rt.alloc(), 6, &links, &[0, 1, 2, 3])?;
    compare_parts(&rt, rt.alloc(), 6, &links, &[0, 0, 1, 1])?;
    Ok(())
}

/// A triangle of bonds, with a node inside and one outside, each joined to two of its corners by a
/// clash and a stitch. No way leads across the bonds, so that inside and outside are two parts.
#[test]
fn bonds_between_parts(rt: HostRuntime) -> Result<(), Fail> {
    let links = [
        bond(0, 1, East(0), West(2)),
        bond(0, 2, East(2), South(0)),
        bond(1, 2, West(0), South(1)),
        clash(0, 3, 6, East(1), West(0)),
        stitch(1, 3, 1, West(1), East(0)),
        clash(0, 4, 3, East(-1), West(0)),
        stitch(1, 4, 2, West(3), East(0)),
    ];
    assert_eq!(rt; counts(rt.alloc(), 5, &links)?, (4, 4, 4));
    compare_odd(&rt, rt.alloc(), 5, &links, &[0, 1, 2, 3])?;
    let (f, g, edge, length) = way(rt.alloc(), 5, &links, 0)?;
    assert_eq!(rt; (edge, length), (3, 12));
    assert!(rt; are_of_one_part(rt.alloc(), 5, &links, f, g)?);
    let (h, i, edge, length) = way(rt.alloc(), 5, &links, 2)?;
    assert_eq!(rt; (edge, length), (5, 6));
    assert!(rt; are_of_one_part(rt.alloc(), 5, &links, h, i)?);
    assert!(rt; !are_of_one_part(rt.alloc(), 5, &links, f, h)?);
    Ok(())
}

/// A square with both diagonals, of which the second is set aside. The first one is a way from one
/// triangle to the other.
#[test]
fn square_with_both_diagonals(rt: HostRuntime) -> Result<(), Fail> {
    let links = [
        clash(0, 1, 1, East(0), West(1)),
        clash(1, 2, 1, North(0), South(1)),
        clash(2, 3, 1, West(0), East(1)),
        clash(0, 3, 1, North(0), South(0)),
        clash(0, 2, 3, East(1), South(0)),
        clash(1, 3, 3, West(0), East(0)),
    ];
    assert_eq!(rt; counts(rt.alloc(), 4, &links)?, (3, 2, 5));
    compare_parts(&rt, rt.alloc(), 4, &links, &[0, 0, 0])?;
    let (f, g, edge, length) = way(rt.alloc(), 4, &links, 4)?;
    assert_eq!(rt; (edge, length), (4, 6));
    assert!(rt; f != g);
    Ok(())
}
