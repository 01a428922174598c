use dpl_plain::{
    are_neighbours, are_of_one_part, component_count, excess, face_count, face_name, is_odd_face,
    kept_edges, leads, meets_faces, passages_on_face, total_excess,
};
use dpl_test_nets::nets::At::{
    East, North, NorthEast, NorthWest, South, SouthEast, SouthWest, West,
};
use dpl_test_nets::nets::{Link, bond, clash, net, stitch};
use std::alloc::Global;
use std::process::Abort;
use std::test::Fail;

/// A net by its number of nodes and its links, and a set of its edges.
#[derive(Clone, Copy)]
struct Part<'a> {
    nodes: u32,
    links: &'a [Link],
    set: &'a [bool],
}

/// The faces, the components and the excess over the set.
fn measured(alloc: Global, part: &Part<'_>) -> Result<(u32, u32, u64), Fail> {
    let net = net(alloc, part.nodes, part.links)?;
    let faces = face_count(alloc, &net, part.set)?;
    let components = component_count(alloc, &net.graph, part.set)?;
    let excess = excess(alloc, &net, part.set)?;
    Ok((faces, components, excess))
}

/// The excess over all edges.
fn whole_excess(alloc: Global, part: &Part<'_>) -> Result<u64, Fail> {
    let net = net(alloc, part.nodes, part.links)?;
    Ok(total_excess(alloc, &net)?)
}

/// Compares the faces, the components and the excess where the set has all edges.
fn compare_measures<R: Abort>(
    rt: &R,
    alloc: Global,
    part: &Part<'_>,
    wanted: (u32, u32, u64),
) -> Result<(), Fail> {
    assert_eq!(rt; measured(alloc, part)?, wanted);
    assert_eq!(rt; whole_excess(alloc, part)?, wanted.2);
    Ok(())
}

/// Compares the kept edges of the net.
fn compare_kept<R: Abort>(
    rt: &R,
    alloc: Global,
    part: &Part<'_>,
    wanted: &[bool],
) -> Result<(), Fail> {
    let net = net(alloc, part.nodes, part.links)?;
    let kept = kept_edges(alloc, &net)?;
    assert_eq!(rt; kept.as_slice(), wanted);
    Ok(())
}

/// The name of the face of a dart.
fn name_of(alloc: Global, part: &Part<'_>, dart: u32) -> Result<u32, Fail> {
    let net = net(alloc, part.nodes, part.links)?;
    if (dart / 2) as usize >= net.graph.edges.as_slice().len() {
        return Err("no dart")?;
    }
    Ok(face_name(alloc, &net, part.set, dart)?)
}

/// Compares the names of the faces of some darts.
fn compare_names<R: Abort>(
    rt: &R,
    alloc: Global,
    part: &Part<'_>,
    wanted: &[(u32, u32)],
) -> Result<(), Fail> {
    for (dart, name) in wanted {
        assert_eq!(rt; name_of(alloc, part, *dart)?, *name, "{dart}");
    }
    Ok(())
}

/// Whether a face is odd.
fn is_odd(alloc: Global, part: &Part<'_>, face: u32) -> Result<bool, Fail> {
    let net = net(alloc, part.nodes, part.links)?;
    Ok(is_odd_face(alloc, &net, part.set, face)?)
}

/// How often a face passes some edges.
fn passages(alloc: Global, part: &Part<'_>, test: &[bool], face: u32) -> Result<u32, Fail> {
    let net = net(alloc, part.nodes, part.links)?;
    Ok(passages_on_face(alloc, &net, part.set, test, face)?)
}

/// Compares whether a set of edges meets the faces.
fn compare_meeting<R: Abort>(
    rt: &R,
    alloc: Global,
    part: &Part<'_>,
    chosen: &[bool],
    wanted: bool,
) -> Result<(), Fail> {
    let net = net(alloc, part.nodes, part.links)?;
    assert_eq!(rt; meets_faces(alloc, &net, part.set, chosen)?, wanted);
    Ok(())
}

/// Whether two faces are neighbours, and whether they are of one part.
fn relation(alloc: Global, part: &Part<'_>, f: u32, g: u32) -> Result<(bool, bool), Fail> {
    let net = net(alloc, part.nodes, part.links)?;
    let neighbours = are_neighbours(alloc, &net, part.set, f, g)?;
    let together = are_of_one_part(alloc, &net, part.set, f, g)?;
    Ok((neighbours, together))
}

/// Compares which pairs of faces are neighbours, and which are of one part.
fn compare_pairs<R: Abort>(
    rt: &R,
    alloc: Global,
    part: &Part<'_>,
    wanted: &[(u32, u32, (bool, bool))],
) -> Result<(), Fail> {
    for (f, g, are) in wanted {
        assert_eq!(rt; relation(alloc, part, *f, *g)?, *are, "{f} {g}");
    }
    Ok(())
}

/// Compares whether these faces lead from one face to another, each to a neighbour.
fn compare_path<R: Abort>(
    rt: &R,
    alloc: Global,
    part: &Part<'_>,
    from: u32,
    faces: &[u32],
    to: u32,
    wanted: bool,
) -> Result<(), Fail> {
    let net = net(alloc, part.nodes, part.links)?;
    assert_eq!(rt; leads(alloc, &net, part.set, from, faces, to)?, wanted);
    Ok(())
}

fn odd_triangle() -> [Link; 3] {
    [
        clash(0, 1, 10, East(200), West(-200)),
        clash(0, 2, 10, North(-350), South(350)),
        clash(1, 2, 10, North(-650), South(650)),
    ]
}

/// Two of them, one above the other.
fn two_triangles() -> [Link; 6] {
    [
        clash(0, 1, 10, East(200), West(-200)),
        clash(0, 2, 10, North(-350), South(350)),
        clash(1, 2, 10, North(-350), South(650)),
        clash(3, 4, 10, East(200), West(-200)),
        clash(3, 5, 10, North(-350), South(350)),
        clash(4, 5, 10, North(-350), South(650)),
    ]
}

#[test]
fn odd_triangle_has_two_faces(rt: HostRuntime) -> Result<(), Fail> {
    let part = Part {
        nodes: 3,
        links: &odd_triangle(),
        set: &[true; 3],
    };
    compare_measures(&rt, rt.alloc(), &part, (2, 1, 0))?;
    compare_kept(&rt, rt.alloc(), &part, &[true, true, true])
}

/// Its faces are those of darts 0 and 1, and both pass three clashes. Breaking one meets them.
#[test]
fn odd_triangle_has_odd_faces(rt: HostRuntime) -> Result<(), Fail> {
    let part = Part {
        nodes: 3,
        links: &odd_triangle(),
        set: &[true; 3],
    };
    compare_names(&rt, rt.alloc(), &part, &[(4, 0), (2, 1)])?;
    assert!(rt; is_odd(rt.alloc(), &part, 0)? && is_odd(rt.alloc(), &part, 1)?);
    let broken = [true, false, false];
    assert_eq!(rt; passages(rt.alloc(), &part, &broken, 0)?, 1);
    Ok(())
}

/// Both faces are odd, and each edge has one on each side: one edge or all three meet them.
#[test]
fn one_edge_meets_the_odd_triangle(rt: HostRuntime) -> Result<(), Fail> {
    let links = odd_triangle();
    let all = Part {
        nodes: 3,
        links: &links,
        set: &[true, true, true],
    };
    let two = Part {
        nodes: 3,
        links: &links,
        set: &[true, true],
    };
    compare_meeting(&rt, rt.alloc(), &all, &[false, false, true], true)?;
    compare_meeting(&rt, rt.alloc(), &all, &[true, true, true], true)?;
    compare_meeting(&rt, rt.alloc(), &all, &[false, true, true], false)?;
    compare_meeting(&rt, rt.alloc(), &all, &[], false)?;
    compare_meeting(&rt, rt.alloc(), &two, &[false, false, true], false)
}

#[test]
fn odd_triangle_has_neighbours(rt: HostRuntime) -> Result<(), Fail> {
    let part = Part {
        nodes: 3,
        links: &odd_triangle(),
        set: &[true; 3],
    };
    let pairs = [
        (0, 1, (true, true)),
        (1, 0, (true, true)),
        (0, 0, (false, true)),
    ];
    compare_pairs(&rt, rt.alloc(), &part, &pairs)?;
    compare_path(&rt, rt.alloc(), &part, 0, &[1, 0, 1], 1, true)?;
    compare_path(&rt, rt.alloc(), &part, 0, &[1, 0], 1, false)?;
    compare_path(&rt, rt.alloc(), &part, 0, &[0, 1], 1, false)
}

/// The faces of the first are those of darts 0 and 1, and of the second those of darts 6 and 7. A number of no dart is a
/// part of its own.
#[test]
fn triangles_apart_are_not_neighbours(rt: HostRuntime) -> Result<(), Fail> {
    let part = Part {
        nodes: 6,
        links: &two_triangles(),
        set: &[true; 6],
    };
    let pairs = [
        (1, 0, (true, true)),
        (6, 7, (true, true)),
        (0, 6, (false, false)),
        (1, 6, (false, false)),
        (1, 7, (false, false)),
        (7, 1, (false, false)),
        (12, 12, (false, true)),
        (12, 13, (false, false)),
    ];
    compare_pairs(&rt, rt.alloc(), &part, &pairs)?;
    compare_path(&rt, rt.alloc(), &part, 7, &[6, 7, 6], 6, true)?;
    compare_path(&rt, rt.alloc(), &part, 0, &[1, 6, 7], 7, false)
}

/// Both sides of a single edge are one face. A stitch is crossed, and a bond is not.
#[test]
fn bonds_are_not_crossed(rt: HostRuntime) -> Result<(), Fail> {
    let bonded = Part {
        nodes: 2,
        links: &[bond(0, 1, East(0), West(0))],
        set: &[true],
    };
    compare_pairs(&rt, rt.alloc(), &bonded, &[(0, 0, (false, true))])?;
    compare_meeting(&rt, rt.alloc(), &bonded, &[false], true)?;
    compare_meeting(&rt, rt.alloc(), &bonded, &[true], false)?;
    let stitched = Part {
        nodes: 2,
        links: &[stitch(0, 1, 1, East(0), West(0))],
        set: &[true],
    };
    compare_pairs(&rt, rt.alloc(), &stitched, &[(0, 0, (true, true))])?;
    compare_meeting(&rt, rt.alloc(), &stitched, &[true], true)
}

/// Over the kept edges the faces turn counterclockwise: darts 6, 3, 0 and darts 1, 4, 5, 2, 7.
#[test]
fn square_with_both_diagonals(rt: HostRuntime) -> Result<(), Fail> {
    let links = [
        clash(0, 1, 10, East(200), West(-200)),
        clash(0, 2, 10, North(-200), South(200)),
        clash(0, 3, 10, NorthEast(100, 100), SouthWest(100, 100)),
        clash(1, 2, 10, NorthWest(100, 100), SouthEast(100, 100)),
        clash(1, 3, 10, North(-800), South(800)),
        clash(2, 3, 10, East(800), West(-800)),
    ];
    let all = Part {
        nodes: 4,
        links: &links,
        set: &[true; 6],
    };
    let kept = [true, true, true, true, false, false];
    compare_measures(&rt, rt.alloc(), &all, (2, 1, 2))?;
    compare_kept(&rt, rt.alloc(), &all, &kept)?;
    let some = Part {
        nodes: 4,
        links: &links,
        set: &kept,
    };
    let names = [(6, 0), (3, 0), (4, 1), (5, 1), (2, 1), (7, 1)];
    compare_names(&rt, rt.alloc(), &some, &names)
}

#[test]
fn three_parallel_edges(rt: HostRuntime) -> Result<(), Fail> {
    let part = Part {
        nodes: 2,
        links: &[
            clash(0, 1, 10, East(0), West(0)),
            clash(0, 1, 10, East(2), West(2)),
            clash(0, 1, 10, East(4), West(4)),
        ],
        set: &[true; 3],
    };
    compare_measures(&rt, rt.alloc(), &part, (1, 1, 2))?;
    compare_kept(&rt, rt.alloc(), &part, &[true, true, false])
}

/// A ring of four nodes, and the path that is left without its last edge.
#[test]
fn ring_and_tree(rt: HostRuntime) -> Result<(), Fail> {
    let links = [
        bond(0, 1, East(0), West(0)),
        stitch(1, 2, 1, East(0), West(0)),
        clash(2, 3, 10, East(0), West(0)),
        clash(0, 3, 10, West(0), East(0)),
    ];
    let ring = Part {
        nodes: 4,
        links: &links,
        set: &[true; 4],
    };
    compare_measures(&rt, rt.alloc(), &ring, (2, 1, 0))?;
    assert!(rt; !is_odd(rt.alloc(), &ring, 0)?);
    let tree = Part {
        nodes: 4,
        links: &links,
        set: &[true, true, true, false],
    };
    assert_eq!(rt; measured(rt.alloc(), &tree)?, (1, 1, 0));
    Ok(())
}

/// A single node, and a node apart from two pairs.
#[test]
fn single_node_and_two_components(rt: HostRuntime) -> Result<(), Fail> {
    let single = Part {
        nodes: 1,
        links: &[],
        set: &[],
    };
    compare_measures(&rt, rt.alloc(), &single, (1, 1, 0))?;
    let pairs = Part {
        nodes: 5,
        links: &[
            bond(0, 1, East(0), West(0)),
            clash(2, 3, 10, East(0), West(0)),
        ],
        set: &[true; 2],
    };
    compare_measures(&rt, rt.alloc(), &pairs, (3, 3, 0))
}
