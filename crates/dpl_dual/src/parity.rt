//! Which faces of a map are odd.

ghost use Rattle.std.specs.Prelude.{◌≡◌, ℕ, ◌*◌, ◌/◌, ◌&&◌, ◌<◌, length, filter, slice_index_or, false, IfOk};
ghost use Rattle.std.specs.List.{range_with_len};
ghost use Rattle.dpl_sign.specs.Kinds.{is_clash as is_clash_kind};
ghost use Rattle.dpl_sign.specs.Walks.{edge_at};
ghost use Rattle.dpl_map.specs.Views.{view_of};
ghost use Rattle.dpl_map.specs.Sides.{IsMap, is_kept, is_odd_face};

use dpl_map::Map;
use dpl_sign::Signed;
use std::alloc::{AllocError, Global};

/// Whether a dart is of a kept clash.
fn is_clash(map: &Map<'_>, graph: &Signed, dart: u32) -> bool
    requires map { IsMap graph.now (view_of map.now) }
    requires inside { dart < 2 * length graph.now.edges }
    ensures { result ≡ (is_kept (view_of map.now) dart
        && is_clash_kind (edge_at graph.now (dart / 2)).kind) }
{
    let clash = graph.edges.as_slice()[(dart / 2) as usize].kind.is_clash();
    map.kept(dart / 2) & clash
}

/// Changes the parity of a face for each dart of a kept clash.
fn pass(map: &Map<'_>, graph: &Signed, odd: &mut [bool])
    requires map { IsMap graph.now (view_of map.now) }
    requires faces { length odd.old ≡ (view_of map.now).faces }
    requires even { (f : ℕ) → slice_index_or odd.old f false ≡ false }
    ensures { (f : ℕ) → f < (view_of map.now).faces →
        slice_index_or odd.new f false ≡ is_odd_face graph.now (view_of map.now) f }
{
    for dart in 0..2 * graph.edges.as_slice().len() as u32 {
        if is_clash(map, graph, dart) {
            let face = map.face_of(dart) as usize;
            odd[face] = !odd[face];
        }
    }
}

/// For each face whether it passes clashes an odd number of times.
pub fn parities(alloc: Global, map: &Map<'_>, graph: &Signed) -> Result<Vec<bool>, AllocError>
    requires { IsMap graph.now (view_of map.now) }
    ensures length { IfOk result (λ v. length v.items ≡ (view_of map.now).faces) }
    ensures each { IfOk result (λ v. (f : ℕ) → f < (view_of map.now).faces →
        slice_index_or v.items f false ≡ is_odd_face graph.now (view_of map.now) f) }
{
    let mut odd = vec![in alloc; false; map.faces() as usize]?;
    pass(map, graph, &mut odd);
    Ok(odd)
}

/// The faces at which a test holds, ascending.
pub fn chosen(alloc: Global, test: &[bool], faces: u32) -> Result<Vec<u32>, AllocError>
    requires { length test.now ≡ faces }
    ensures { IfOk result (λ v. v.items ≡
        filter (λ f. slice_index_or test.now f false) (range_with_len 0 faces)) }
{
    let mut list = Vec::new(alloc);
    for face in 0..faces {
        if test[face as usize] {
            list.push(face)?;
        }
    }
    Ok(list)
}
