//! The faces that members hold, and those of them that are near a set.

ghost use Rattle.std.specs.Prelude.{◌≡◌, ◌<◌, ◌≤◌, ◌^◌, ◌++◌, length, map, IfOk, OnOk, All};
ghost use Rattle.std.specs.List.{flat_map};
ghost use Rattle.dpl_list.specs.Rows.{rows_by};
ghost use Rattle.dpl_pack.specs.Spots.{spot_of, near_one, near_held};

use crate::held::Held;
use dpl_list::Grouped;
use std::alloc::{AllocError, Global};

/// The members that hold them.
fn members_of(alloc: Global, held: &[Held]) -> Result<Vec<u32>, AllocError>
    ensures { IfOk result (λ v. v.items ≡ map (λ h. h.member) held.now) }
{
    held.iter().map(|h| h.member).collect(alloc)
}

fn spot_of(held: &Held) -> (u32, u64)
    ensures { result ≡ spot_of held.now }
{
    (held.face, held.far)
}

/// The faces, each with how far it is.
fn places_of(alloc: Global, held: &[Held]) -> Result<Vec<(u32, u64)>, AllocError>
    ensures { IfOk result (λ v. v.items ≡ map spot_of held.now) }
{
    held.iter().map(spot_of).collect(alloc)
}

/// For each of so many members the faces that it holds, each with how far it is.
pub fn spots_of(alloc: Global, held: &[Held], n: u32) -> Result<Grouped<(u32, u64)>, AllocError>
    requires members { All (λ h. h.member < n) held.now }
    ensures { IfOk result (λ g. g ≡ rows_by (map (λ h. h.member) held.now) (map spot_of held.now) n) }
{
    let members = members_of(alloc, held)?;
    let places = places_of(alloc, held)?;
    let spots = Grouped::by_key(alloc, n, &members, &places)?;
    Ok(spots)
}

/// Adds a face that a member holds, with its depth in a set, where that is less than the value. The end
/// is the member with the values of the sets inside that hold it.
fn add_one(
    spot: (u32, u64),
    end: (u32, u128),
    value: u64,
    near: &mut Vec<(u32, u64)>,
) -> Result<(), AllocError>
    requires inner { end.1 ≤ 2 ^ 72 }
    requires small { value ≤ 2 ^ 50 }
    ensures { OnOk result (near.new.items ≡ near.old.items ++ near_one value end spot) }
{
    let (face, far) = spot;
    let inner = end.1;
    let far = far as u128;
    if far >= inner + value as u128 {
        return Ok(());
    }
    near.push((face, far.saturating_sub(inner) as u64))?;
    Ok(())
}

/// Adds those of all that a member holds.
fn add_row(
    row: &[(u32, u64)],
    end: (u32, u128),
    value: u64,
    near: &mut Vec<(u32, u64)>,
) -> Result<(), AllocError>
    requires inner { end.1 ≤ 2 ^ 72 }
    requires small { value ≤ 2 ^ 50 }
    ensures { OnOk result (near.new.items ≡ near.old.items ++ flat_map (near_one value end) row.now) }
{
    for i in 0..row.len() {
        add_one(row[i], end, value, near)?;
    }
    Ok(())
}

/// The faces that the members of a set hold less deep in it than its value, with their depths. The
/// ends are the members of the set, each with the values of the sets inside that hold it.
pub fn near_held(
    alloc: Global,
    ends: &[(u32, u128)],
    spots: &Grouped<(u32, u64)>,
    value: u64,
) -> Result<Vec<(u32, u64)>, AllocError>
    requires members { All (λ e. e.0 < length spots.now) ends.now }
    requires inner { All (λ e. e.1 ≤ 2 ^ 72) ends.now }
    requires small { value ≤ 2 ^ 50 }
    ensures { IfOk result (λ v. v.items ≡ near_held value ends.now spots.now) }
{
    let mut near = Vec::new(alloc);
    for i in 0..ends.len() {
        let end = ends[i];
        add_row(spots.row(end.0 as usize), end, value, &mut near)?;
    }
    Ok(near)
}

/// The faces of what is near.
pub fn faces_of(alloc: Global, near: &[(u32, u64)]) -> Result<Vec<u32>, AllocError>
    ensures { IfOk result (λ v. v.items ≡ map (λ p. p.0) near.now) }
{
    near.iter().map(|p| p.0).collect(alloc)
}

/// The depths of what is near.
pub fn depths_of(alloc: Global, near: &[(u32, u64)]) -> Result<Vec<u64>, AllocError>
    ensures { IfOk result (λ v. v.items ≡ map (λ p. p.1) near.now) }
{
    near.iter().map(|p| p.1).collect(alloc)
}
