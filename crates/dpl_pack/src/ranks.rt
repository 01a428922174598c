//! The faces near a set by their depths, and the marks of those up to a level.

ghost use Rattle.std.specs.Prelude.{◌≡◌, ℕ, ◌<◌, ◌≤◌, length, All, OnOk};
ghost use Rattle.dpl_pack.specs.Marks.{AreCleared};
ghost use Rattle.dpl_pack.specs.Ranks.{depth_at, first_faces, AreListed, AreRanked, AreMarkedFirst};

use std::alloc::AllocError;

/// Lists faces with their depths.
fn list(faces: &[u32], depths: &[u64], order: &mut Vec<(u64, u32)>) -> Result<(), AllocError>
    requires { length depths.now ≡ length faces.now }
    ensures { OnOk result (AreListed faces.now depths.now (length faces.now) order.new.items) }
{
    order.clear();
    for i in 0..faces.len() {
        order.push((depths[i], faces[i]))?;
    }
    Ok(())
}

/// Lists faces with their depths, from the least depth on, in a memory that is handed in.
pub fn rank(faces: &[u32], depths: &[u64], order: &mut Vec<(u64, u32)>) -> Result<(), AllocError>
    requires { length depths.now ≡ length faces.now }
    ensures { OnOk result (AreRanked faces.now depths.now order.new.items) }
{
    list(faces, depths, order)?;
    order.sort_unstable_by_key(|e| e.0);
    Ok(())
}

/// Marks the faces up to a level, where so many first ones are marked, and tells how many are now.
pub fn mark_up_to(order: &[(u64, u32)], level: u64, marked: usize, inside: &mut [bool]) -> usize
    requires marked { AreMarkedFirst order.now marked inside.old }
    requires before { (j : ℕ) → j < marked → depth_at order.now j ≤ level }
    requires faces { All (λ e. e.0 ≤ level → e.1 < length inside.old) order.now }
    ensures marked { AreMarkedFirst order.now result inside.new }
    ensures before { (j : ℕ) → j < result → depth_at order.now j ≤ level }
    ensures beyond { result < length order.now → level < depth_at order.now result }
{
    for i in marked..order.len() {
        let (depth, face) = order[i];
        if depth > level {
            return i;
        }
        inside[face as usize] = true;
    }
    order.len()
}

/// Clears the marks of so many first faces.
pub fn clear_first(order: &[(u64, u32)], marked: usize, inside: &mut [bool])
    requires { AreMarkedFirst order.now marked inside.old }
    ensures { AreCleared (first_faces order.now marked) inside.old inside.new }
{
    for i in 0..marked {
        inside[order[i].1 as usize] = false;
    }
}
