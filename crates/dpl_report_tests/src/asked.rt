// What these tests ask of a split.
use dpl_lex::Name;
use dpl_options::{Options, Weights};

/// Layer M, a spacing of one micron, an overlap of 0.2, a stitch of weight 1, these weights of a clash between sides and
/// of one between corners, and this keep layer, none where the name is empty.
pub fn asked(conflict: u64, corner: u64, keep: &[u8]) -> Option<Options> {
    if conflict < 1 || conflict > 1_000_000 {
        return None;
    }
    if corner < 1 || corner > 1_000_000 {
        return None;
    }
    let layer = Name::new(b"M")?;
    if layer.bytes().len() > 31 {
        return None;
    }
    if keep.is_empty() {
        return Some(Options::new(layer, 100, 20, Weights::new(1, conflict, corner), None));
    }
    let keep = Name::new(keep)?;
    if keep.bytes().len() > 31 {
        return None;
    }
    Some(Options::new(
        layer,
        100,
        20,
        Weights::new(1, conflict, corner),
        Some(keep),
    ))
}
