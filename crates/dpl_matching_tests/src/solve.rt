use dpl_solve::{Solution, solve};
use dpl_test_nets::nets::At::{
    East, North, NorthEast, NorthWest, South, SouthEast, SouthWest, West,
};
use dpl_test_nets::nets::{Link, clash, net, stitch};
use std::alloc::Global;
use std::process::Abort;
use std::test::Fail;

/// The optimum of a drawing.
fn optimum(alloc: Global, nodes: u32, links: &[Link]) -> Result<Solution, Fail> {
    let net = net(alloc, nodes, links)?;
    if net.graph.edges.as_slice().len() > 500_000 {
        return Err("too many edges")?;
    }
    match solve(alloc, &net) {
        Ok(solution) => Ok(solution),
        Err(_) => Err("no optimum")?,
    }
}

/// The numbers of an optimum.
#[derive(Clone, Copy)]
struct Measures {
    cost: u64,
    bound: u64,
    cycles: usize,
    excess: u64,
    aside: usize,
}

fn measured(alloc: Global, nodes: u32, links: &[Link]) -> Result<Measures, Fail> {
    let solution = optimum(alloc, nodes, links)?;
    Ok(Measures {
        cost: solution.cost,
        bound: solution.bound,
        cycles: solution.cycles.as_slice().len(),
        excess: solution.excess,
        aside: solution.aside.as_slice().len(),
    })
}

/// Compares the edges that are set aside.
fn compare_aside<R: Abort>(
    rt: &R,
    alloc: Global,
    nodes: u32,
    links: &[Link],
    aside: &[u32],
) -> Result<(), Fail> {
    let solution = optimum(alloc, nodes, links)?;
    assert_eq!(rt; solution.aside.as_slice(), aside);
    Ok(())
}

/// An odd cycle around each face of the triangle, with the weight of a clash.
#[test]
fn odd_triangle(rt: HostRuntime) -> Result<(), Fail> {
    let links = [
        clash(0, 1, 10, East(0), West(0)),
        clash(0, 2, 10, West(0), East(0)),
        clash(1, 2, 10, East(0), West(0)),
    ];
    let found = measured(rt.alloc(), 3, &links)?;
    assert_eq!(rt; (found.cost, found.bound), (10, 20));
    assert_eq!(rt; found.cycles, 2);
    assert_eq!(rt; (found.excess, found.aside), (0, 0));
    Ok(())
}

/// A ring of five clashes and three stitches breaks a stitch.
#[test]
fn a_stitch_is_cheaper(rt: HostRuntime) -> Result<(), Fail> {
    let links = [
        stitch(0, 1, 1, East(0), West(0)),
        clash(0, 2, 10, West(0), East(0)),
        clash(1, 3, 10, East(0), West(0)),
        clash(2, 4, 10, West(0), East(0)),
        clash(3, 7, 10, East(0), West(0)),
        stitch(4, 5, 1, West(0), East(0)),
        clash(5, 6, 10, West(0), East(0)),
        stitch(6, 7, 1, West(0), East(0)),
    ];
    let found = measured(rt.alloc(), 8, &links)?;
    assert_eq!(rt; (found.cost, found.bound), (1, 2));
    Ok(())
}

/// Two diagonals are set aside. One broken clash is kept, and one is not.
#[test]
fn square_with_both_diagonals(rt: HostRuntime) -> Result<(), Fail> {
    let links = [
        clash(0, 1, 10, East(200), West(-200)),
        clash(0, 2, 10, North(-200), South(200)),
        clash(0, 3, 10, NorthEast(100, 100), SouthWest(100, 100)),
        clash(1, 2, 10, NorthWest(100, 100), SouthEast(100, 100)),
        clash(1, 3, 10, North(-200), South(800)),
        clash(2, 3, 10, East(800), West(-200)),
    ];
    let found = measured(rt.alloc(), 4, &links)?;
    assert_eq!(rt; (found.cost, found.bound), (20, 20));
    compare_aside(&rt, rt.alloc(), 4, &links, &[4, 5])
}

/// Two triangles far apart: each pays for itself.
#[test]
fn two_parts(rt: HostRuntime) -> Result<(), Fail> {
    let links = [
        clash(0, 1, 10, East(0), West(0)),
        clash(0, 2, 10, West(0), East(0)),
        clash(1, 2, 10, East(0), West(0)),
        clash(3, 4, 7, East(0), West(0)),
        clash(3, 5, 7, West(0), East(0)),
        clash(4, 5, 7, East(0), West(0)),
    ];
    let found = measured(rt.alloc(), 6, &links)?;
    assert_eq!(rt; (found.cost, found.bound), (17, 34));
    assert_eq!(rt; found.cycles, 4);
    Ok(())
}
