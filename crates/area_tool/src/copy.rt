//! What the pixels of a tile present, put into the list of a view.

ghost use Rattle.std.specs.Prelude.{◌<◌};
ghost use Rattle.lattice_core.specs.Views.{IsChecked};
ghost use Rattle.lattice_core.specs.Tiles.{tiles_of, span_of};
ghost use Rattle.area_tool.specs.Numbers.{IsCopied, IsOnePerPixel};

use lattice_core::View;
use tile_blocks::copy_tile;

/// Puts what the pixels of a tile present into the list of a view, and sets no other pixel. Both lists have one number a pixel,
/// row by row from the top: `part` those of the tile, and `all` those of the view.
pub fn copy_present(view: &View, tile: u32, part: &[u32], all: &mut [u32])
    requires view { IsChecked view.now }
    requires tile { tile < tiles_of view.now }
    requires part { IsOnePerPixel (span_of view.now tile).w (span_of view.now tile).h part.now }
    requires all { IsOnePerPixel view.now.w view.now.h all.old }
    ensures { IsCopied view.now tile part.now all.old all.new }
{
    copy_tile(1, view, tile, part, all);
}
