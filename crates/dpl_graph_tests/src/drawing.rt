use dpl_drawing::{Cycles, Drawing, draw};
use dpl_test_nets::nets::At::{East, West};
use dpl_test_nets::nets::{Link, clash, net};
use std::alloc::{AllocError, Global};
use std::process::Abort;
use std::test::Fail;

fn drawing(alloc: Global, nodes: u32, links: &[Link]) -> Result<Drawing, Fail> {
    let net = net(alloc, nodes, links)?;
    Ok(draw(alloc, &net)?)
}

/// Compares the kept edges of a drawing, those set aside and the corners.
fn compare<R: Abort>(rt: &R, drawing: &Drawing, kept: &[bool], aside: &[u32], corners: &[u32]) {
    assert_eq!(rt; drawing.kept.as_slice(), kept);
    assert_eq!(rt; drawing.aside.as_slice(), aside);
    assert_eq!(rt; drawing.corners.as_slice(), corners);
}

/// Three clashes between two nodes that come to both in one order: the last one would cross.
#[test]
fn last_of_three_is_aside(rt: HostRuntime) -> Result<(), Fail> {
    let links = [
        clash(0, 1, 10, East(0), West(0)),
        clash(0, 1, 10, East(1), West(1)),
        clash(0, 1, 10, East(2), West(2)),
    ];
    let drawing = drawing(rt.alloc(), 2, &links)?;
    assert_eq!(rt; (drawing.components, drawing.excess), (1, 2));
    compare(
        &rt,
        &drawing,
        &[true, true, false],
        &[2],
        &[3, 2, 1, 0, 4, 5],
    );
    Ok(())
}

/// Clashes at one side of a node, in an order far from that of their keys, 119 keys on each time.
fn star(alloc: Global) -> Result<Vec<Link>, AllocError> {
    let mut links = Vec::new(alloc);
    for leaf in 0_u32..300 {
        let key = i64::from(leaf * 7919 % 300);
        links.push(clash(0, leaf + 1, 10, East(key), West(0)))?;
    }
    Ok(links)
}

/// The corner of each edge leads back along it, and the one at its end to the edge at the next key, which is the one
/// 179 further on.
fn star_corners(alloc: Global) -> Result<Vec<u32>, AllocError> {
    let mut corners = Vec::new(alloc);
    for edge in 0_u32..300 {
        corners.push(2 * edge + 1)?;
        corners.push((edge + 179) % 300 * 2)?;
    }
    Ok(corners)
}

/// So one face goes around all.
#[test]
fn star_in_mixed_order_has_one_face(rt: HostRuntime) -> Result<(), Fail> {
    let links = star(rt.alloc())?;
    let drawing = drawing(rt.alloc(), 301, links.as_slice())?;
    assert_eq!(rt; (drawing.components, drawing.excess), (1, 0));
    let corners = star_corners(rt.alloc())?;
    compare(&rt, &drawing, &[true; 300], &[], corners.as_slice());
    Ok(())
}

/// One cycle through three numbers, which then falls into two.
#[test]
fn cycles_are_joined_and_split(rt: HostRuntime) -> Result<(), Fail> {
    let mut cycles = Cycles::new(rt.alloc(), 4)?;
    cycles.splice(0, 1);
    cycles.splice(1, 2);
    assert!(rt; cycles.are_together(0, 2) && !cycles.are_together(0, 3));
    cycles.splice(0, 1);
    assert_eq!(rt; (cycles.next(0), cycles.next(1), cycles.prev(2)), (2, 1, 0));
    assert!(rt; !cycles.are_together(0, 1));
    Ok(())
}
