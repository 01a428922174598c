// From a drawing to the fragments and the net of its chosen layer.
ghost use Rattle.std.specs.Prelude.{◌≡◌, ◌⊎◌, ◌≤◌, ◌*◌, length, map, IfOk, IfErr};
ghost use Rattle.dpl_limits.specs.declared.TheConstants.{MOST_FRAGMENTS, MOST_TILES};
ghost use Rattle.dpl_cell.specs.Places.{corners_of};
ghost use Rattle.dpl_cell.specs.Layers.{cells_of};
ghost use Rattle.dpl_cell.specs.Tiles.{AreTiles};
ghost use Rattle.dpl_cuts.specs.Fragments.{CameFromCut};
ghost use Rattle.dpl_layer.specs.Layers.{AreFragmentsOf, IsCutLayer};
ghost use Rattle.dpl_layer.specs.Reasons.{FirstOf, RefusesOnly, RefusesWhere};
ghost use Rattle.dpl_layer.specs.Refusals.{cells_reasons};

use crate::drawing::Drawing;
use crate::error::{LayerError, refusal};
use dpl_cell::Rect;
use dpl_cuts::cut;
use dpl_cuts::types::Fragments;
use dpl_limits::Counted;
use dpl_links::net;
use dpl_near::shapes;
use dpl_options::Options;
use dpl_sign::Net;
use dpl_tiles::{tiles, tiles_share_out};
use std::alloc::Global;

/// A layer as fragments in the order of their lower left corners, and the net that joins them
/// by number.
#[derive(Drop)]
pub struct Layer {
    pub fragments: Fragments,
    pub net: Net,
}

/// The fragments and the net of the chosen layer of a drawing. Nothing is cut in a cell of its keep layer.
pub fn layer_of(alloc: Global, drawing: &Drawing, options: &Options) -> Result<Layer, LayerError>
    ensures layer { IfOk result (λ l. IsCutLayer options.now (cells_of drawing.now.layer)
        (cells_of drawing.now.keep) l.fragments l.net) }
    ensures refused { RefusesOnly (FirstOf (cells_reasons options.now
        (cells_of drawing.now.layer) (cells_of drawing.now.keep))) result }
    ensures exact { RefusesWhere (FirstOf (cells_reasons options.now
        (cells_of drawing.now.layer) (cells_of drawing.now.keep))) result }
{
    link_drawing(alloc, drawing, options)
}

/// The same; of refusals it is said that one comes where it applies.
fn link_drawing(alloc: Global, drawing: &Drawing, options: &Options) -> Result<Layer, LayerError>
    ensures layer { IfOk result (λ l. IsCutLayer options.now (cells_of drawing.now.layer)
        (cells_of drawing.now.keep) l.fragments l.net) }
    ensures refused { IfErr result (λ e. (e ≡ LayerError.NoMemory) ⊎
        FirstOf (cells_reasons options.now (cells_of drawing.now.layer)
        (cells_of drawing.now.keep)) e) }
{
    tiles_share_out(&drawing.layer);
    let fragments = cut_drawing(alloc, drawing, options)?;
    let space = options.space_in_units();
    match net(alloc, &fragments, options.weights(), space) {
        Ok(net) => Ok(Layer { fragments, net }),
        Err(error) => Err(refusal(Counted::Edges, error)),
    }
}

/// The fragments of the chosen layer of a drawing.
fn cut_drawing(alloc: Global, drawing: &Drawing, options: &Options) -> Result<Fragments, LayerError>
    ensures fragments { IfOk result (λ f. (a : AreFragmentsOf (2 * options.now.space)
        (2 * options.now.overlap) (cells_of drawing.now.layer) (cells_of drawing.now.keep) f) ×
        (length a.keep ≤ MOST_TILES)) }
    ensures cut { IfOk result (λ f. CameFromCut (2 * options.now.space) f) }
    ensures few { IfOk result (λ f. length f.rects ≤ MOST_FRAGMENTS) }
    ensures refused { IfErr result (λ e. (e ≡ LayerError.NoMemory) ⊎
        FirstOf (cells_reasons options.now (cells_of drawing.now.layer)
        (cells_of drawing.now.keep)) e) }
{
    let tiles_there = match tiles(alloc, &drawing.layer) {
        Ok(tiles) => tiles,
        Err(error) => return Err(refusal(Counted::Tiles, error)),
    };
    let keep = match tiles(alloc, &drawing.keep) {
        Ok(tiles) => tiles,
        Err(error) => return Err(refusal(Counted::Tiles, error)),
    };
    let fragments = cut_tiles(
        alloc,
        drawing,
        tiles_there.as_slice(),
        keep.as_slice(),
        options,
    )?;
    Ok(fragments)
}

/// The fragments of the tiles of the chosen layer, beside those of the keep layer.
fn cut_tiles(
    alloc: Global,
    drawing: &Drawing,
    tiles: &[Rect],
    keep: &[Rect],
    options: &Options,
) -> Result<Fragments, LayerError>
    requires tiles { AreTiles (cells_of drawing.now.layer) (map corners_of tiles.now) }
    requires kept { AreTiles (cells_of drawing.now.keep) (map corners_of keep.now) }
    requires few { length tiles.now ≤ MOST_TILES }
    requires few_kept { length keep.now ≤ MOST_TILES }
    ensures fragments { IfOk result (λ f. (a : AreFragmentsOf (2 * options.now.space)
        (2 * options.now.overlap) (cells_of drawing.now.layer) (cells_of drawing.now.keep) f) ×
        (length a.keep ≤ MOST_TILES)) }
    ensures cut { IfOk result (λ f. CameFromCut (2 * options.now.space) f) }
    ensures few { IfOk result (λ f. length f.rects ≤ MOST_FRAGMENTS) }
    ensures refused { IfErr result (λ e. (e ≡ LayerError.NoMemory) ⊎
        FirstOf (cells_reasons options.now (cells_of drawing.now.layer)
        (cells_of drawing.now.keep)) e) }
{
    tiles_share_out(&drawing.layer);
    let shapes = shapes(alloc, tiles)?;
    match cut(
        alloc,
        tiles,
        &shapes,
        keep,
        options.space_in_units(),
        options.overlap_in_units(),
    ) {
        Ok(fragments) => Ok(fragments),
        Err(error) => Err(refusal(Counted::Fragments, error)),
    }
}
