//! Laws of blocks, for those who prove with the calls.

ghost use Rattle.std.specs.Prelude.{ℕ};
ghost use Rattle.lattice_core.specs.Views.{IsChecked};
ghost use Rattle.tile_blocks.specs.Blocks.{IsMadeOfTiles, AreTilesOfBlocks, AreBlocks, IsMadeOfBlocks};

use lattice_core::View;

/// Where all tiles of a view are put into a list, one after the other, it has the samples of the view, row by row, and no other
/// list has them, whatever the depth is.
pub fn block_laws(view: &View)
    requires { IsChecked view.now }
    ensures made { (depth : ℕ) → IsMadeOfTiles {A = ℕ} 0 depth view.now }
    ensures tiles { (depth : ℕ) → AreTilesOfBlocks {A = ℕ} 0 depth view.now }
    ensures whole { (depth : ℕ) → AreBlocks {A = ℕ} 0 depth view.now }
    ensures blocks { (depth : ℕ) → IsMadeOfBlocks {A = ℕ} 0 depth view.now }
{
    let _tiles = view.tiles();
}
