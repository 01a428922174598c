//! Marks at places of a list, which are cleared without a look at the others.

ghost use Rattle.std.specs.Prelude.{◌<◌, length, All};
ghost use Rattle.dpl_pack.specs.Marks.{AreCleared};

/// Clears the marks of some places.
pub fn clear(places: &[u32], marks: &mut [bool])
    requires { All (λ x. x < length marks.old) places.now }
    ensures { AreCleared places.now marks.old marks.new }
{
    for i in 0..places.len() {
        marks[places[i] as usize] = false;
    }
}
