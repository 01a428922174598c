use dpl_map::{Map, build, dart_pair, tail, twin};
use dpl_plain::{aside_edges, face_count, face_name, kept_edges, total_excess};
use dpl_sign::is_in;
use dpl_test_nets::nets::At::{
    East, North, NorthEast, NorthWest, South, SouthEast, SouthWest, West,
};
use dpl_test_nets::nets::{At, Link, bond, clash, net, stitch};
use std::alloc::{AllocError, Global};
use std::process::Abort;
use std::test::Fail;

/// Four boxes, each too close to the others.
fn square_with_both_diagonals() -> [Link; 6] {
    [
        clash(0, 1, 10, East(200), West(-200)),
        clash(0, 2, 10, North(-200), South(200)),
        clash(0, 3, 10, NorthEast(100, 100), SouthWest(100, 100)),
        clash(1, 2, 10, NorthWest(100, 100), SouthEast(100, 100)),
        clash(1, 3, 10, North(-800), South(800)),
        clash(2, 3, 10, East(800), West(-800)),
    ]
}

/// Three clashes between two nodes, in one order around both. A third node lies apart.
fn three_between_two() -> [Link; 3] {
    [
        clash(0, 1, 10, East(0), West(0)),
        clash(0, 1, 10, East(2), West(2)),
        clash(0, 1, 10, East(4), West(4)),
    ]
}

fn odd_triangle() -> [Link; 3] {
    [
        clash(0, 1, 10, East(200), West(-200)),
        clash(0, 2, 10, North(-350), South(350)),
        clash(1, 2, 10, North(-650), South(650)),
    ]
}

fn ring_of_four() -> [Link; 4] {
    [
        bond(0, 1, East(0), West(0)),
        stitch(1, 2, 1, East(0), West(0)),
        clash(2, 3, 10, East(0), West(0)),
        clash(0, 3, 10, West(0), East(0)),
    ]
}

/// A tree of four nodes and a pair. A seventh node lies apart.
fn tree_and_pair() -> [Link; 4] {
    [
        clash(0, 1, 10, East(0), West(0)),
        clash(0, 2, 10, North(0), South(0)),
        clash(0, 3, 10, East(5), West(0)),
        clash(4, 5, 10, North(0), South(0)),
    ]
}

/// Whether a dart is of a kept edge, and has the number of the least dart of its face.
fn is_numbered(alloc: Global, map: &Map<'_>, kept: &[bool], dart: u32) -> Result<bool, Fail> {
    let edges = map.net().graph.edges.as_slice().len() as u32;
    if dart / 2 >= edges {
        return Ok(false);
    }
    let name = face_name(alloc, map.net(), kept, dart)?;
    if name / 2 >= edges {
        return Ok(false);
    }
    if !map.kept(dart / 2) {
        return Ok(false);
    }
    if !map.kept(name / 2) {
        return Ok(false);
    }
    Ok(map.face_of(name) == map.face_of(dart))
}

/// Whether the edges that are set aside are those of the plain program.
fn is_aside_plain(alloc: Global, map: &Map<'_>) -> Result<bool, AllocError> {
    let aside = aside_edges(alloc, map.net())?;
    Ok(map.aside() == aside.as_slice())
}

/// The same of the numbers of faces and of the excess.
fn are_measures_plain(alloc: Global, map: &Map<'_>, kept: &[bool]) -> Result<bool, AllocError> {
    let faces = face_count(alloc, map.net(), kept)?;
    let excess = total_excess(alloc, map.net())?;
    Ok(map.faces() == faces && map.excess() == excess)
}

/// The same of the kept edges and the faces of their darts.
fn are_darts_plain(alloc: Global, map: &Map<'_>, kept: &[bool]) -> Result<bool, Fail> {
    for edge in 0..map.net().graph.edges.as_slice().len() as u32 {
        let (dart, back) = dart_pair(edge);
        let there = is_numbered(alloc, map, kept, dart)?;
        let again = is_numbered(alloc, map, kept, back)?;
        let drawn = is_in(kept, edge);
        if map.kept(edge) != drawn || (there & again) != drawn {
            return Ok(false);
        }
    }
    Ok(true)
}

/// Compares the map of a net with what the plain programs say.
fn compare_plain<R: Abort>(rt: &R, alloc: Global, nodes: u32, links: &[Link]) -> Result<(), Fail> {
    let net = net(alloc, nodes, links)?;
    let map = build(alloc, &net)?;
    let kept = kept_edges(alloc, map.net())?;
    assert!(rt; is_aside_plain(alloc, &map)?);
    assert!(rt; are_measures_plain(alloc, &map, kept.as_slice())?);
    assert!(rt; are_darts_plain(alloc, &map, kept.as_slice())?);
    Ok(())
}

/// The next dart of a face, and the dart itself where it is of no kept edge.
fn next_of(map: &Map<'_>, dart: u32) -> u32 {
    if dart / 2 >= map.net().graph.edges.as_slice().len() as u32 {
        return dart;
    }
    if !map.kept(dart / 2) {
        return dart;
    }
    map.corner_walk(dart)
}

/// Compares the next darts of some darts.
fn compare_nexts<R: Abort>(rt: &R, map: &Map<'_>, wanted: &[(u32, u32)]) {
    for (dart, next) in wanted {
        assert_eq!(rt; next_of(map, *dart), *next, "{dart}");
    }
}

/// Its kept faces turn counterclockwise: darts 6, 3, 0 and darts 1, 4, 5, 2, 7.
#[test]
fn faces_turn_counterclockwise(rt: HostRuntime) -> Result<(), Fail> {
    let net = net(rt.alloc(), 4, &square_with_both_diagonals())?;
    let map = build(rt.alloc(), &net)?;
    let inner = [(6, 3), (3, 0), (0, 6)];
    let outer = [(1, 4), (4, 5), (5, 2), (2, 7), (7, 1)];
    compare_nexts(&rt, &map, &inner);
    compare_nexts(&rt, &map, &outer);
    compare_nexts(&rt, &map, &[(8, 8)]);
    Ok(())
}

/// Compares the darts of each face.
fn compare_faces<R: Abort>(rt: &R, map: &Map<'_>, wanted: &[&[u32]]) {
    assert_eq!(rt; map.faces() as usize, wanted.len());
    for face in 0..map.faces() {
        assert_eq!(rt; Some(&map.darts_of(face)), wanted.get(face as usize));
    }
}

/// Compares the edges that are set aside.
fn compare_aside<R: Abort>(rt: &R, map: &Map<'_>, wanted: &[u32]) {
    assert_eq!(rt; map.aside(), wanted);
}

#[test]
fn square_has_two_faces(rt: HostRuntime) -> Result<(), Fail> {
    let net = net(rt.alloc(), 4, &square_with_both_diagonals())?;
    let map = build(rt.alloc(), &net)?;
    compare_aside(&rt, &map, &[4, 5]);
    assert_eq!(rt; map.excess(), 2);
    compare_faces(&rt, &map, &[&[0, 3, 6], &[1, 2, 4, 5, 7]]);
    Ok(())
}

/// The node at which a dart begins, and the dart the other way.
fn tail_and_twin(map: &Map<'_>, dart: u32) -> Option<(u32, u32)> {
    if dart / 2 >= map.net().graph.edges.as_slice().len() as u32 {
        return None;
    }
    Some((tail(&map.net().graph, dart), twin(dart)))
}

/// Over all three clashes there is one face of six darts, so the last one is set aside.
#[test]
fn three_clashes_between_two_nodes(rt: HostRuntime) -> Result<(), Fail> {
    let net = net(rt.alloc(), 3, &three_between_two())?;
    let map = build(rt.alloc(), &net)?;
    compare_aside(&rt, &map, &[2]);
    assert_eq!(rt; map.excess(), 2);
    compare_faces(&rt, &map, &[&[0, 3], &[1, 2], &[]]);
    assert_eq!(rt; tail_and_twin(&map, 3), Some((1, 2)));
    Ok(())
}

#[test]
fn maps_of_one_component_are_plain(rt: HostRuntime) -> Result<(), Fail> {
    compare_plain(&rt, rt.alloc(), 3, &odd_triangle())?;
    compare_plain(&rt, rt.alloc(), 4, &square_with_both_diagonals())?;
    compare_plain(&rt, rt.alloc(), 4, &ring_of_four())
}

#[test]
fn maps_with_bare_nodes_are_plain(rt: HostRuntime) -> Result<(), Fail> {
    compare_plain(&rt, rt.alloc(), 3, &three_between_two())?;
    compare_plain(&rt, rt.alloc(), 7, &tree_and_pair())?;
    compare_plain(&rt, rt.alloc(), 1, &[])
}

/// Numbers that look random.
fn next_number(number: u64) -> u64 {
    number
        .wrapping_mul(6364136223846793005)
        .wrapping_add(1442695040888963407)
}

fn place_of(bits: u64) -> At {
    let key = (bits % 5) as i64;
    let (dx, dy) = (1 + bits % 3, bits / 64 % 3);
    match bits / 8 % 8 {
        0 => South(key),
        1 => East(key),
        2 => North(key),
        3 => West(key),
        4 => SouthWest(dx, dy),
        5 => SouthEast(dx, dy),
        6 => NorthEast(dx, dy),
        _ => NorthWest(dx, dy),
    }
}

/// An edge between two of five nodes.
fn link_of(bits: u64, at_a: At, at_b: At) -> Link {
    let a = (bits % 4) as u32;
    let b = a + 1 + (bits / 4 % 16) as u32 % (4 - a);
    clash(a, b, 1 + bits % 7, at_a, at_b)
}

/// Eight edges between five nodes, at ports in no order.
fn made_links(alloc: Global, seed: u64) -> Result<Vec<Link>, AllocError> {
    let mut links = Vec::new(alloc);
    let mut number = seed;
    for _edge in 0..8 {
        let first = next_number(number);
        let second = next_number(first);
        number = next_number(second);
        let (at_a, at_b) = (place_of(second >> 40), place_of(number >> 40));
        links.push(link_of(first >> 40, at_a, at_b))?;
    }
    Ok(links)
}

#[test]
fn maps_of_made_nets(rt: HostRuntime) -> Result<(), Fail> {
    for seed in 0..12 {
        let links = made_links(rt.alloc(), seed)?;
        compare_plain(&rt, rt.alloc(), 5, links.as_slice())?;
    }
    Ok(())
}

/// The darts of edge 4.
#[test]
fn darts_of_an_edge(rt: HostRuntime) -> Result<(), Fail> {
    assert_eq!(rt; dart_pair(4), (8, 9));
    Ok(())
}
