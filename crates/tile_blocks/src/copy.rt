//! The samples of a tile, put into the list of a view.

ghost use Rattle.std.specs.Prelude.{◌≡◌, ◌<◌, ◌≤◌, ◌+◌, ◌*◌, length};
ghost use Rattle.lattice_core.specs.declared.limit.TheConstants.{PICTURE_SIDE};
ghost use Rattle.lattice_core.specs.Views.{IsChecked};
ghost use Rattle.lattice_core.specs.Tiles.{tiles_of, span_of};
ghost use Rattle.tile_blocks.specs.Blocks.{IsRaster, IsCopied};
ghost use Rattle.tile_blocks.specs.Steps.{with_samples, IsRowCopied};

use lattice_core::{TileSpan, View};

/// Puts samples of a list from a place on into another list, at a place.
fn put<T: Copy>(part: &[T], from: usize, all: &mut [T], to: usize, count: usize)
    requires part { from + count ≤ length part.now }
    requires all { to + count ≤ length all.old }
    ensures { all.new ≡ with_samples part.now from all.old to count }
{
    all[to..to + count].copy_from_slice(&part[from..from + count]);
}

/// Puts a row of a tile into a list of `w` columns.
fn copy_row<T: Copy>(depth: u32, w: u32, span: TileSpan, row: u32, part: &[T], all: &mut [T])
    requires columns { span.column + span.w ≤ w }
    requires width { w ≤ PICTURE_SIDE }
    requires row { row < span.h }
    requires rows { span.row + span.h ≤ PICTURE_SIDE }
    requires part { length part.now ≡ depth * (span.w * span.h) }
    requires all { depth * (w * (span.row + span.h)) ≤ length all.old }
    ensures { (z : T) → IsRowCopied z depth w span row part.now all.old all.new }
{
    let depth = depth as usize;
    let from = depth * (row * span.w) as usize;
    let to = depth * ((span.row + row) * w + span.column) as usize;
    put(part, from, all, to, depth * span.w as usize);
}

/// Puts the samples of a tile of a view into the list of the view, and sets no other pixel. Both lists have `depth` samples a
/// pixel, row by row from the top: `part` those of the tile, and `all` those of the view.
pub fn copy_tile<T: Copy>(depth: u32, view: &View, tile: u32, part: &[T], all: &mut [T])
    requires view { IsChecked view.now }
    requires tile { tile < tiles_of view.now }
    requires part { IsRaster depth (span_of view.now tile).w (span_of view.now tile).h part.now }
    requires all { IsRaster depth view.now.w view.now.h all.old }
    ensures { (z : T) → IsCopied z depth view.now tile part.now all.old all.new }
{
    let span = view.span(tile);
    for row in 0..span.h {
        copy_row(depth, view.w, span, row, part, all);
    }
}
