//! Parts over grids that are drawn by lot, against a plain program.

use crate::dual::{dual_of, part_of};
use dpl_dual::Dual;
use dpl_sign::Net;
use dpl_test_nets::nets::At::{East, North, South, West};
use dpl_test_nets::nets::{At, Link, bond, clash, net, stitch};
use std::alloc::{AllocError, Global};
use std::process::Abort;
use std::test::Fail;

/// The number after x of a simple sequence.
fn after(x: u64) -> u64 {
    x.wrapping_mul(6364136223846793005)
        .wrapping_add(1442695040888963407)
}

/// A link of a grid, if it is of the bonds or of the others, as is asked. Some are left out.
fn link(seed: u64, a: u32, b: u32, ends: (At, At), bonds: bool) -> Option<Link> {
    let place = u64::from(a).wrapping_mul(64).wrapping_add(u64::from(b));
    let lot = after(after(after(seed).wrapping_add(place))) / 65536;
    let kind = lot % 16;
    let weight = lot / 16 % 9 + 1;
    let (at_a, at_b) = ends;
    if (kind == 0) | ((kind == 1) != bonds) {
        return None;
    }
    if kind == 1 {
        return Some(bond(a, b, at_a, at_b));
    }
    if kind < 6 {
        return Some(stitch(a, b, weight, at_a, at_b));
    }
    Some(clash(a, b, weight, at_a, at_b))
}

/// Puts a link behind the others.
fn put(links: &mut Vec<Link>, link: Option<Link>) -> Result<(), AllocError> {
    if let Some(link) = link {
        links.push(link)?;
    }
    Ok(())
}

/// Puts the bonds of a grid of five rows of six nodes, or its other links, behind the others.
fn put_links(seed: u64, bonds: bool, links: &mut Vec<Link>) -> Result<(), AllocError> {
    for node in 0..30u32 {
        if node % 6 < 5 {
            let ends = (East(0), West(0));
            put(links, link(seed, node, node + 1, ends, bonds))?;
        }
        if node < 24 {
            let ends = (North(0), South(0));
            put(links, link(seed, node, node + 6, ends, bonds))?;
        }
    }
    Ok(())
}

/// A grid that is drawn by lot.
fn grid(alloc: Global, seed: u64) -> Result<Net, Fail> {
    let mut links = Vec::new(alloc);
    put_links(seed, true, &mut links)?;
    put_links(seed, false, &mut links)?;
    net(alloc, 30, links.as_slice())
}

/// The name that stands for a face, and the greatest number where there is none.
fn at(names: &[u32], face: u32) -> u32 {
    match names.get(face as usize) {
        Some(name) => *name,
        None => u32::MAX,
    }
}

/// Gives the face on one side of a way the name of that on the other, where it is less.
fn pass_on(names: &mut [u32], f: u32, g: u32) {
    let name = at(names, f);
    if name < at(names, g) && (g as usize) < names.len() {
        names[g as usize] = name;
    }
}

/// For each face the least face that ways join it to, by looking at all ways again and again.
fn least_faces(alloc: Global, dual: &Dual) -> Result<Vec<u32>, AllocError> {
    let mut names = Vec::new(alloc);
    for face in 0..dual.faces {
        names.push(face)?;
    }
    for _round in 0..dual.faces {
        for way in dual.crosses.as_slice() {
            pass_on(&mut names, way.f, way.g);
            pass_on(&mut names, way.g, way.f);
        }
    }
    Ok(names)
}

/// Compares the parts of a grid with those of the plain program, for each two faces.
fn compare_grid<R: Abort>(rt: &R, alloc: Global, seed: u64) -> Result<(), Fail> {
    let net = grid(alloc, seed)?;
    let dual = dual_of(alloc, &net)?;
    let plain = least_faces(alloc, &dual)?;
    for f in 0..dual.faces {
        for g in 0..dual.faces {
            let one_part = part_of(&dual, f) == part_of(&dual, g);
            assert_eq!(rt; one_part, at(&plain, f) == at(&plain, g), "{seed} {f} {g}");
        }
    }
    Ok(())
}

#[test]
fn parts_of_grids(rt: HostRuntime) -> Result<(), Fail> {
    for seed in 0..20u64 {
        compare_grid(&rt, rt.alloc(), seed)?;
    }
    Ok(())
}
