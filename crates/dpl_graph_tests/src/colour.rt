use dpl_colour::{colour, meets_by_number};
use dpl_map::build;
use dpl_plain::{kept_edges, meets_faces};
use dpl_sign::{Net, broken};
use dpl_test_nets::nets::At::{East, North, South, West};
use dpl_test_nets::nets::{Link, bond, clash, net, stitch};
use std::alloc::{AllocError, Global};
use std::process::Abort;
use std::test::Fail;

fn colour_at(colours: &[bool], node: u32) -> bool {
    match colours.get(node as usize) {
        Some(colour) => *colour,
        None => false,
    }
}

/// The numbers of the edges that a colouring breaks.
fn broken_edges(alloc: Global, net: &Net, colours: &[bool]) -> Result<Vec<u32>, AllocError> {
    let edges = net.graph.edges.as_slice();
    let mut list = Vec::new(alloc);
    for i in 0..edges.len() as u32 {
        let edge = &edges[i as usize];
        if broken(edge, colour_at(colours, edge.a), colour_at(colours, edge.b)) {
            list.push(i)?;
        }
    }
    Ok(list)
}

/// The colouring that is to break a set of edges, which meets the faces by the plain program.
fn coloured(alloc: Global, net: &Net, joined: &[bool]) -> Result<Vec<bool>, Fail> {
    if joined.len() != net.graph.edges.as_slice().len() {
        return Err("not one place for each edge")?;
    }
    let map = build(alloc, net)?;
    let kept = kept_edges(alloc, net)?;
    if !meets_faces(alloc, net, kept.as_slice(), joined)? {
        return Err("the set does not meet the faces")?;
    }
    meets_by_number(&map, joined);
    let colours = colour(alloc, &map, &net.graph, joined)?;
    Ok(colours)
}

/// Compares the edges that the colouring of a set of edges breaks.
fn compare_broken<R: Abort>(
    rt: &R,
    alloc: Global,
    nodes: u32,
    links: &[Link],
    joined: &[bool],
    wanted: &[u32],
) -> Result<(), Fail> {
    let net = net(alloc, nodes, links)?;
    let colours = coloured(alloc, &net, joined)?;
    assert_eq!(rt; colours.len(), nodes as usize);
    let found = broken_edges(alloc, &net, &colours)?;
    assert_eq!(rt; found.as_slice(), wanted);
    Ok(())
}

/// Whether the first two nodes have one colour.
fn are_first_alike(
    alloc: Global,
    nodes: u32,
    links: &[Link],
    joined: &[bool],
) -> Result<bool, Fail> {
    let net = net(alloc, nodes, links)?;
    let colours = coloured(alloc, &net, joined)?;
    Ok(colour_at(&colours, 0) == colour_at(&colours, 1))
}

/// One clash, with the same face on both sides, is broken or not, and two nodes lie apart.
#[test]
fn one_clash(rt: HostRuntime) -> Result<(), Fail> {
    let links = [clash(0, 1, 4, East(0), West(0))];
    compare_broken(&rt, rt.alloc(), 4, &links, &[false], &[])?;
    compare_broken(&rt, rt.alloc(), 4, &links, &[true], &[0])
}

/// A bond, a stitch and a clash around a triangle: the stitch is broken, or the clash.
#[test]
fn one_of_each_kind(rt: HostRuntime) -> Result<(), Fail> {
    let links = [
        bond(0, 1, East(0), West(0)),
        stitch(0, 2, 1, North(0), West(0)),
        clash(1, 2, 10, North(0), East(0)),
    ];
    let (stitch, clash) = ([false, true, false], [false, false, true]);
    compare_broken(&rt, rt.alloc(), 3, &links, &stitch, &[1])?;
    compare_broken(&rt, rt.alloc(), 3, &links, &clash, &[2])?;
    assert!(rt; are_first_alike(rt.alloc(), 3, &links, &stitch)?);
    assert!(rt; are_first_alike(rt.alloc(), 3, &links, &clash)?);
    Ok(())
}

/// Three clashes of the same two nodes, in the same order around both. The third is set aside, and is broken or not
/// as it comes.
#[test]
fn a_clash_set_aside(rt: HostRuntime) -> Result<(), Fail> {
    let links = [
        clash(0, 1, 1, South(0), South(0)),
        clash(0, 1, 1, East(0), East(0)),
        clash(0, 1, 1, North(0), North(0)),
    ];
    compare_broken(&rt, rt.alloc(), 2, &links, &[false, false, false], &[])?;
    compare_broken(&rt, rt.alloc(), 2, &links, &[true, true, false], &[0, 1, 2])
}
