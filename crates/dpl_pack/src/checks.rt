//! Whether faces that are held are a flood.

ghost use Rattle.std.specs.Prelude.{◌≡◌, ◌≢◌, ℕ, ◌<◌, ◌≤◌, true, Option, Some, None, List, length, slice_index, slice_index_or, replicate, IfOk, All};
ghost use Rattle.dpl_laminar.specs.Families.{IsFamily};
ghost use Rattle.dpl_laminar.specs.Storing.{sets_of};
ghost use Rattle.dpl_dual.specs.Duals.{CameFromDual};
ghost use Rattle.dpl_pack.specs.Moats.{AreTerminals};
ghost use Rattle.dpl_pack.specs.Points.{on, apart, total_at};
ghost use Rattle.dpl_pack.specs.Climbs.{AreTotals};
ghost use Rattle.dpl_pack.specs.Floods.{IsFloodOf};
ghost use Rattle.dpl_pack.specs.Notes.{note_at, noted, IsHoldable, AreNoted, AreShortTo, AreSeatedTo, IsShore};

use crate::climbs::{Tree, all_totals, apart};
use crate::held::Held;
use dpl_dual::{Cross, Dual};
use dpl_laminar::Family;
use std::alloc::{AllocError, Global};

/// Whether a face may be held: one of the part of a face, by one of so many members.
fn is_holdable(dual: &Dual, start: u32, n: u32, held: &Held) -> bool
    requires parts { length dual.now.part ≡ dual.now.faces }
    requires start { start < dual.now.faces }
    ensures { result ≡ true → IsHoldable dual.now start n held.now }
{
    if held.face >= dual.faces {
        return false;
    }
    if held.member >= n {
        return false;
    }
    let part = dual.part.as_slice();
    part[held.face as usize] == part[start as usize]
}

/// The point of a face that is held.
fn point_of(held: &Held) -> (u32, u128)
    ensures { result ≡ (held.now.member, held.now.far) }
{
    (held.member, held.far as u128)
}

/// Nothing is noted of so many faces.
fn blank_notes(alloc: Global, faces: u32) -> Result<Vec<Option<(u32, u128)>>, AllocError>
    ensures { IfOk result (λ v. v.items ≡ replicate faces None) }
{
    let mut notes = Vec::new(alloc);
    for _face in 0..faces {
        notes.push(None)?;
    }
    Ok(notes)
}

/// Notes the faces that are held, where each may be held and comes once.
fn note_all(
    dual: &Dual,
    start: u32,
    n: u32,
    held: &[Held],
    notes: &mut [Option<(u32, u128)>],
) -> bool
    requires parts { length dual.now.part ≡ dual.now.faces }
    requires start { start < dual.now.faces }
    requires blank { AreNoted dual.now start n held.now 0 notes.old }
    ensures { result ≡ true → AreNoted dual.now start n held.now (length held.now) notes.new }
{
    for i in 0..held.len() {
        let h = held[i];
        if !is_holdable(dual, start, n, &h) {
            return false;
        }
        if notes[h.face as usize].is_some() {
            return false;
        }
        notes[h.face as usize] = Some(point_of(&h));
    }
    true
}

/// The point of a face, where open water is at the shore.
fn point_at(notes: &[Option<(u32, u128)>], face: u32, shore: (u32, u128)) -> (u32, u128)
    requires { face < length notes.now }
    ensures some { (s : ℕ × ℕ) → note_at notes.now face ≡ Some s → result ≡ s }
    ensures none { note_at notes.now face ≡ None → result ≡ shore }
{
    match notes[face as usize] {
        Some(spot) => spot,
        None => shore,
    }
}

/// Whether no way is shorter than the points of its faces are apart.
fn are_short(
    tree: &Tree<'_>,
    ways: &[Cross],
    notes: &[Option<(u32, u128)>],
    shore: (u32, u128),
) -> bool
    requires totals { AreTotals (sets_of tree.now.family.now) tree.now.totals.now }
    requires family { IsFamily (sets_of tree.now.family.now) }
    requires faces { All (λ x. (x.f < length notes.now) × (x.g < length notes.now)) ways.now }
    requires notes { (g : ℕ) (s : ℕ × ℕ) → note_at notes.now g ≡ Some s → s.0 < (sets_of tree.now.family.now).size }
    requires shore { IsShore (sets_of tree.now.family.now) shore }
    ensures { result ≡ true → AreShortTo (sets_of tree.now.family.now) (noted notes.now) ways.now (length ways.now) }
{
    for k in 0..ways.len() {
        let first = point_at(notes, ways[k].f, shore);
        let second = point_at(notes, ways[k].g, shore);
        if apart(tree, first, second) > ways[k].length as u128 {
            return false;
        }
    }
    true
}

/// Whether each odd face has the point of its seat.
fn are_seated(
    tree: &Tree<'_>,
    terminals: &[u32],
    notes: &[Option<(u32, u128)>],
    shore: (u32, u128),
) -> bool
    requires totals { AreTotals (sets_of tree.now.family.now) tree.now.totals.now }
    requires family { IsFamily (sets_of tree.now.family.now) }
    requires size { (sets_of tree.now.family.now).size ≡ length terminals.now }
    requires faces { All (λ x. x < length notes.now) terminals.now }
    requires notes { (g : ℕ) (s : ℕ × ℕ) → note_at notes.now g ≡ Some s → s.0 < (sets_of tree.now.family.now).size }
    requires shore { IsShore (sets_of tree.now.family.now) shore }
    ensures { result ≡ true → AreSeatedTo (sets_of tree.now.family.now) (noted notes.now) terminals.now (length terminals.now) }
{
    for t in 0..terminals.len() {
        let point = point_at(notes, terminals[t], shore);
        if apart(tree, point, (t as u32, 0)) > 0 {
            return false;
        }
    }
    true
}

/// Whether the faces that are held are a flood of a family over the odd faces of one part. Where the
/// answer is yes, `moats_of` may be called, whatever has found the family and what its members hold. It
/// takes time for the sets round the faces of each way.
pub fn is_flood(
    alloc: Global,
    dual: &Dual,
    terminals: &[u32],
    family: &Family,
    held: &[Held],
) -> Result<bool, AllocError>
    requires dual { CameFromDual dual.now }
    requires terminals { AreTerminals dual.now terminals.now }
    requires members { (sets_of family.now).size ≡ length terminals.now }
    ensures flood { IfOk result (λ b. b ≡ true → IsFloodOf dual.now terminals.now (sets_of family.now) held.now) }
{
    let _top = family.tops(0);
    let n = terminals.len() as u32;
    let start = terminals[0];
    let totals = all_totals(alloc, family, n)?;
    let mut notes = blank_notes(alloc, dual.faces)?;
    if !note_all(dual, start, n, held, &mut notes) {
        return Ok(false);
    }
    let tree = Tree {
        family,
        totals: &totals,
    };
    let shore = (0, totals[0]);
    if !are_seated(&tree, terminals, &notes, shore) {
        return Ok(false);
    }
    let is_short = are_short(&tree, dual.crosses.as_slice(), &notes, shore);
    Ok(is_short)
}
