ghost use Rattle.tile_shot.specs.Pixels.{AreKeptTilesWhole, IsMadeOfKeptTiles};

use shot_core::kept_laws;

/// Laws of the pixels of tiles: the tile of the regions that are kept for it has those of all regions, and the picture of these
/// tiles has those of the view. The function does nothing: its contract is the laws.
pub fn pixel_laws()
    ensures tiles { AreKeptTilesWhole }
    ensures picture { IsMadeOfKeptTiles }
{
    kept_laws();
}
