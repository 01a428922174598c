// The parts of a drawing: the classes of faces over stitches and clashes.
ghost use Rattle.std.specs.Prelude.{◌≡◌, ℕ, ◌<◌, ◌*◌, ◌+◌, ◌⊎◌, ◌↔◌, length, slice_index, IfOk, EachIndex, IsTrue, if◌then◌else◌};
ghost use Rattle.dpl_cycle.specs.Names.{join as joined};
ghost use Rattle.dpl_sign.specs.Drawings.{dart_count, is_in as in_set, face_of};
ghost use Rattle.dpl_sign.specs.Parity.{is_crossable as crossable, AreOfOnePart};

use crate::parity::{face_name, is_crossable};
use crate::replace::replace;
use dpl_sign::Net;
use std::alloc::{AllocError, Global};

/// The parts with one edge more: if it is crossed, the faces on its two sides are of one part.
fn cross(
    alloc: Global,
    net: &Net,
    set: &[bool],
    names: &mut [u32],
    edge: u32,
) -> Result<(), AllocError>
    requires faces { length names.old ≡ dart_count net.now }
    requires edge { edge < length net.now.graph.edges }
    ensures { IfOk result (λ _. EachIndex names.new (λ v. slice_index names.new v ≡
        (if crossable net.now (in_set set.now) edge
        then joined (slice_index names.old) (face_of net.now (in_set set.now) (2
        * edge)) (face_of net.now (in_set set.now) (2 * edge + 1)) v
        else slice_index names.old v))) }
{
    let there = face_name(alloc, net, set, 2 * edge)?;
    let back = face_name(alloc, net, set, 2 * edge + 1)?;
    if is_crossable(net, set, edge) {
        let (name, other) = (names[there as usize], names[back as usize]);
        replace(names, other, name);
    }
    Ok(())
}

/// The parts with all edges, begun with each face alone.
fn cross_all(alloc: Global, net: &Net, set: &[bool], names: &mut [u32]) -> Result<(), AllocError>
    requires faces { length names.old ≡ dart_count net.now }
    requires alone { EachIndex names.old (λ v. slice_index names.old v ≡ v) }
    ensures { IfOk result (λ _. (x y : ℕ) → x < dart_count net.now → y < dart_count net.now →
        (slice_index names.new x ≡ slice_index names.new y ↔
        AreOfOnePart net.now (in_set set.now) x y)) }
{
    for edge in 0..net.graph.edges.as_slice().len() as u32 {
        cross(alloc, net, set, names, edge)?;
    }
    Ok(())
}

/// A name for the part of each face. What is no face has a name of its own.
fn part_names(alloc: Global, net: &Net, set: &[bool]) -> Result<Vec<u32>, AllocError>
    ensures length { IfOk result (λ v. length v.items ≡ dart_count net.now) }
    ensures each { IfOk result (λ v. (x y : ℕ) → x < dart_count net.now → y < dart_count net.now →
        (slice_index v.items x ≡ slice_index v.items y ↔
        AreOfOnePart net.now (in_set set.now) x y)) }
{
    let mut names = Vec::new(alloc);
    for face in 0..2 * net.graph.edges.as_slice().len() as u32 {
        names.push(face)?;
    }
    cross_all(alloc, net, set, &mut names)?;
    Ok(names)
}

/// Whether two numbers are the same, or have one name.
fn have_one_name(names: &[u32], f: u32, g: u32) -> bool
    ensures { IsTrue result ↔
        ((f ≡ g) ⊎ ((f < length names.now) × ((g < length names.now) ×
        (slice_index names.now f ≡ slice_index names.now g)))) }
{
    let (first, second) = (f as usize, g as usize);
    if first < names.len() && second < names.len() {
        names[first] == names[second]
    } else {
        f == g
    }
}

/// Whether neighbours lead from one face to another.
pub fn are_of_one_part(
    alloc: Global,
    net: &Net,
    set: &[bool],
    f: u32,
    g: u32,
) -> Result<bool, AllocError>
    ensures { IfOk result (λ b. IsTrue b ↔ AreOfOnePart net.now (in_set set.now) f g) }
{
    let names = part_names(alloc, net, set)?;
    Ok(have_one_name(&names, f, g))
}
