use dpl_parts::{components, counted_components};
use dpl_test_nets::nets::At::{East, West};
use dpl_test_nets::nets::{Link, bond, clash, net, stitch};
use std::alloc::Global;
use std::process::Abort;
use std::test::Fail;

/// Compares the component of each node, as they are found alone and with their number.
fn compare<R: Abort>(
    rt: &R,
    alloc: Global,
    nodes: u32,
    links: &[Link],
    wanted: &[u32],
    count: u32,
) -> Result<(), Fail> {
    let net = net(alloc, nodes, links)?;
    let number = components(alloc, &net)?;
    assert_eq!(rt; number.as_slice(), wanted);
    let (number, found) = counted_components(alloc, &net)?;
    assert_eq!(rt; number.as_slice(), wanted);
    assert_eq!(rt; found, count);
    Ok(())
}

/// Edges of each kind join, also where there are no others. The ports do not matter to components.
#[test]
fn edges_of_each_kind_join(rt: HostRuntime) -> Result<(), Fail> {
    let bonds = [bond(0, 2, East(0), West(0)), bond(1, 3, East(0), West(0))];
    compare(&rt, rt.alloc(), 4, &bonds, &[0, 1, 0, 1], 2)?;
    let stitches = [
        stitch(1, 2, 1, East(0), West(0)),
        stitch(2, 3, 1, East(0), West(0)),
    ];
    compare(&rt, rt.alloc(), 4, &stitches, &[0, 1, 1, 1], 2)?;
    let clashes = [
        clash(0, 1, 10, East(0), West(0)),
        clash(0, 3, 10, East(0), West(0)),
    ];
    compare(&rt, rt.alloc(), 4, &clashes, &[0, 0, 1, 0], 2)
}

/// Edges of different kinds one behind the other make one component, which has the number of its least node among
/// all. Two edges between the same nodes count as one.
#[test]
fn components_of_all_kinds(rt: HostRuntime) -> Result<(), Fail> {
    let chain = [
        bond(4, 6, East(0), West(0)),
        stitch(1, 4, 1, East(0), West(0)),
        stitch(3, 5, 2, East(0), West(0)),
        clash(1, 2, 10, East(0), West(0)),
        clash(3, 5, 10, East(0), West(0)),
    ];
    compare(&rt, rt.alloc(), 7, &chain, &[0, 1, 1, 2, 1, 2, 1], 3)
}

/// Without edges each node is a component, and without nodes there is none.
#[test]
fn lone_nodes(rt: HostRuntime) -> Result<(), Fail> {
    compare(&rt, rt.alloc(), 3, &[], &[0, 1, 2], 3)?;
    compare(&rt, rt.alloc(), 0, &[], &[], 0)
}
