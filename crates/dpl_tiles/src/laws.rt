// What holds of the tiles of a layout, said without the steps that find them.
ghost use Rattle.std.specs.Prelude.{List};
ghost use Rattle.dpl_cell.specs.Places.{Corners};
ghost use Rattle.dpl_cell.specs.Layers.{cells_of};
ghost use Rattle.dpl_cell.specs.Tiles.{AreTiles};
ghost use Rattle.dpl_tiles.specs.Union.{SharesOut};

use dpl_cell::Layout;

/// Each cell of a layout lies in exactly one of its tiles, and no other cell lies in any.
pub fn tiles_share_out(layout: &Layout)
    ensures { (tiles : List Corners) → AreTiles (cells_of layout.now) tiles →
        SharesOut (cells_of layout.now) tiles }
{}
