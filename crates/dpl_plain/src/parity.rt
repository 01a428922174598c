// The clashes that faces pass: which faces are odd, and which sets of edges meet the faces.
ghost use Rattle.std.specs.Prelude.{◌≡◌, ℕ, ◌%◌, ◌==◌, ◌<◌, ◌↔◌, true, length, IfOk, IsTrue};
ghost use Rattle.dpl_sign.specs.Drawings.{dart_count, is_in as in_set, face_of};
ghost use Rattle.dpl_sign.specs.Parity.{passages_on_face as passages_of, is_odd_face as odd_face, is_clash_edge, is_crossable as crossable, MeetsFaces};

use crate::cycles::least;
use crate::faces::successors;
use dpl_sign::{Net, is_in};
use std::alloc::{AllocError, Global};

/// The face of a dart, named by its least dart.
pub fn face_name(alloc: Global, net: &Net, set: &[bool], dart: u32) -> Result<u32, AllocError>
    requires { dart < dart_count net.now }
    ensures { IfOk result (λ f. f ≡ face_of net.now (in_set set.now) dart) }
{
    let mut nexts = successors(alloc, net, set)?;
    Ok(least(&mut nexts, dart))
}

/// How often a face of a set of edges passes edges of another, each dart counted.
pub fn passages_on_face(
    alloc: Global,
    net: &Net,
    set: &[bool],
    test: &[bool],
    face: u32,
) -> Result<u32, AllocError>
    ensures { IfOk result (λ n. n ≡ passages_of net.now (in_set set.now) (in_set test.now) face) }
{
    let mut count = 0;
    for dart in 0..2 * net.graph.edges.as_slice().len() as u32 {
        let here = face_name(alloc, net, set, dart)? == face;
        if is_in(set, dart / 2) & here & is_in(test, dart / 2) {
            count += 1;
        }
    }
    Ok(count)
}

/// The clashes as a set of edges.
fn clashes(alloc: Global, net: &Net) -> Result<Vec<bool>, AllocError>
    ensures { IfOk result (λ v. (e : ℕ) → e < length net.now.graph.edges →
        in_set v.items e ≡ is_clash_edge net.now e) }
{
    let mut test = Vec::new(alloc);
    for edge in 0..net.graph.edges.as_slice().len() as u32 {
        test.push(net.graph.edges.as_slice()[edge as usize].kind.is_clash())?;
    }
    Ok(test)
}

/// Whether a face passes clashes an odd number of times.
pub fn is_odd_face(alloc: Global, net: &Net, set: &[bool], face: u32) -> Result<bool, AllocError>
    ensures { IfOk result (λ odd. odd ≡ odd_face net.now (in_set set.now) face) }
{
    let test = clashes(alloc, net)?;
    let passages = passages_on_face(alloc, net, set, &test, face)?;
    Ok(passages % 2 == 1)
}

/// Whether an edge is a stitch or a clash of a set.
pub fn is_crossable(net: &Net, set: &[bool], edge: u32) -> bool
    requires { edge < length net.now.graph.edges }
    ensures { result ≡ crossable net.now (in_set set.now) edge }
{
    is_in(set, edge) & !net.graph.edges.as_slice()[edge as usize].kind.is_bond()
}

/// Whether all edges chosen are stitches and clashes of the set.
fn are_crossable(net: &Net, set: &[bool], chosen: &[bool]) -> bool
    ensures { IsTrue result ↔ ((e : ℕ) → e < length net.now.graph.edges →
        in_set chosen.now e ≡ true → crossable net.now (in_set set.now) e ≡ true) }
{
    for edge in 0..net.graph.edges.as_slice().len() as u32 {
        let crossed = is_crossable(net, set, edge);
        if is_in(chosen, edge) & !crossed {
            return false;
        }
    }
    true
}

/// Whether a face passes as many chosen edges as clashes, up to parity.
fn is_met(
    alloc: Global,
    net: &Net,
    set: &[bool],
    chosen: &[bool],
    face: u32,
) -> Result<bool, AllocError>
    ensures { IfOk result (λ met.
        met ≡ (passages_of net.now (in_set set.now) (in_set chosen.now) face % 2
        == passages_of net.now (in_set set.now) (is_clash_edge net.now) face % 2)) }
{
    let test = clashes(alloc, net)?;
    let clashed = passages_on_face(alloc, net, set, &test, face)?;
    let passed = passages_on_face(alloc, net, set, chosen, face)?;
    Ok(passed % 2 == clashed % 2)
}

/// Whether each face passes as many chosen edges as clashes, up to parity.
fn are_met(alloc: Global, net: &Net, set: &[bool], chosen: &[bool]) -> Result<bool, AllocError>
    ensures { IfOk result (λ met. IsTrue met ↔
        ((f : ℕ) → f < dart_count net.now →
        passages_of net.now (in_set set.now) (in_set chosen.now) f % 2
        ≡ passages_of net.now (in_set set.now) (is_clash_edge net.now) f % 2)) }
{
    for face in 0..2 * net.graph.edges.as_slice().len() as u32 {
        if !is_met(alloc, net, set, chosen, face)? {
            return Ok(false);
        }
    }
    Ok(true)
}

/// Whether the edges chosen are stitches and clashes of the set, of which each face passes as many
/// as it passes clashes, up to parity.
pub fn meets_faces(
    alloc: Global,
    net: &Net,
    set: &[bool],
    chosen: &[bool],
) -> Result<bool, AllocError>
    ensures { IfOk result (λ meets. IsTrue meets ↔
        MeetsFaces net.now (in_set set.now) (in_set chosen.now)) }
{
    let crossed = are_crossable(net, set, chosen);
    let met = are_met(alloc, net, set, chosen)?;
    Ok(crossed & met)
}
