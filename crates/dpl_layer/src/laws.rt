// What holds of each layer. Nothing runs.
ghost use Rattle.std.specs.Prelude.{◌≡◌, ℤ, List};
ghost use Rattle.dpl_cell.specs.Images.{moved_cells, moved};
ghost use Rattle.dpl_cell.specs.Places.{Corners};
ghost use Rattle.dpl_cell.specs.Tiles.{AreTiles};
ghost use Rattle.dpl_tiles.specs.Union.{SharesOut};
ghost use Rattle.dpl_cuts.specs.declared.types.Fragments.{Fragments};
ghost use Rattle.dpl_cuts.specs.Images.{AreImages};
ghost use Rattle.dpl_sign.specs.declared.nets.Net.{Net};
ghost use Rattle.dpl_sign.specs.Redrawn.{IsMovedPort, IsRedrawn};
ghost use Rattle.dpl_links.specs.Moving.{key_shift};
ghost use Rattle.dpl_layer.specs.Drawings.{Cells, OnLayer};
ghost use Rattle.dpl_layer.specs.Layers.{IsLayerOf};

use dpl_options::Options;

/// Cells, and cells that are kept whole, have one list of fragments and one net.
pub fn one_layer(options: &Options)
    ensures { (cells kept : Cells) (f g : Fragments) (n m : Net) →
        IsLayerOf options.now cells kept f n → IsLayerOf options.now cells kept g m →
        (f ≡ g) × (n ≡ m) }
{}

/// Cells that are moved, and with them those that are kept whole, have the same fragments, moved,
/// and the same net but for the keys of its ports, which are moved along their sides.
pub fn layers_may_be_moved(options: &Options)
    ensures { (right up : ℤ) (cells kept : Cells) (f g : Fragments) (n m : Net) →
        AreImages (moved right up) f g → IsRedrawn (IsMovedPort (key_shift right up)) n m →
        IsLayerOf options.now cells kept f n →
        IsLayerOf options.now (moved_cells right up cells) (moved_cells right up kept) g m }
{}

/// Each cell that a text draws on the chosen layer lies in exactly one of its tiles, and no other
/// cell lies in any.
pub fn layers_share_out(options: &Options, text: &[u8])
    ensures { OnLayer options.now text.now (λ cells kept. Unit {0}) →
        OnLayer options.now text.now (λ cells kept. (tiles : List Corners) →
        AreTiles cells tiles → SharesOut cells tiles) }
{}
