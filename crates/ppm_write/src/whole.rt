ghost use Rattle.lattice_core.specs.Views.{IsChecked};
ghost use Rattle.ppm_write.specs.Pictures.{IsMadeOfTiles, AreTilesOfBlocks, AreBlocks, IsMadeOfBlocks};

use lattice_core::View;
use tile_blocks::block_laws;

/// Where all tiles of a view are put into a picture, one after the other, the picture has the pixels of the view: it is their
/// bytes, row by row. These are laws for those who prove with these calls.
pub fn tiles_make_the_picture(view: &View)
    requires { IsChecked view.now }
    ensures made { IsMadeOfTiles view.now }
    ensures tiles { AreTilesOfBlocks view.now }
    ensures whole { AreBlocks view.now }
    ensures bytes { IsMadeOfBlocks view.now }
{
    block_laws(view);
}
