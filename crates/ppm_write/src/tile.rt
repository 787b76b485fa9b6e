//! The pixels of a tile, put into the picture of a view.
ghost use Rattle.std.specs.Prelude.{◌<◌};
ghost use Rattle.lattice_core.specs.Views.{IsChecked};
ghost use Rattle.lattice_core.specs.Tiles.{tiles_of, span_of};
ghost use Rattle.ppm_write.specs.Pictures.{IsCopied, IsPictureOf};

use lattice_core::View;

/// The bytes of a pixel.
const BYTES: u32 = 3;

/// Puts the pixels of a tile of a view into a picture of the view, and sets no other pixel. Both are lists of three bytes a
/// pixel, red, green and blue, row by row from the top.
pub fn copy_tile(view: &View, tile: u32, bytes: &[u8], picture: &mut [u8])
    requires view { IsChecked view.now }
    requires tile { tile < tiles_of view.now }
    requires bytes { IsPictureOf (span_of view.now tile).w (span_of view.now tile).h bytes.now }
    requires picture { IsPictureOf view.now.w view.now.h picture.old }
    ensures { IsCopied view.now tile bytes.now picture.old picture.new }
{
    tile_blocks::copy_tile(BYTES, view, tile, bytes, picture);
}
