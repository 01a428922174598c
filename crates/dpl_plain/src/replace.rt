// One number in the place of another.
ghost use Rattle.std.specs.Prelude.{◌≡◌, ◌==◌, slice_index, EachIndex, if◌then◌else◌};

/// Puts one number in the place of another, wherever it stands.
pub fn replace(list: &mut [u32], old: u32, new: u32)
    ensures { EachIndex list.new (λ k. slice_index list.new k
        ≡ (if slice_index list.old k == old then new else slice_index list.old k)) }
{
    for place in 0..list.len() {
        if list[place] == old {
            list[place] = new;
        }
    }
}
