use crate::key::TileKey;
use crate::pixel::pixels;
use first_hit::near_order;
use lattice_core::View;
use memory_core::Memory;
use shot_core::Scene;
use std::alloc::Global;
use std::marker::Model;

/// The pixels of a tile, with what names it: three bytes a pixel, red, green and blue, row by row from the top. They are those
/// that the bodies of its name give. Contracts see it as its name and its bytes.
#[derive(Debug, Drop)]
pub struct Tile {
    key: TileKey,
    bytes: Vec<u8>,
}

impl Model for Tile {
    ghost use Rattle.tile_shot.specs.Named.{NamedTile, tile_code, IsShot};

    ghost Value = { NamedTile };

    ghost coded = { tile_code };

    ghost view = { λ s. record { key = s.key; bytes = s.bytes.items } };

    ghost invariant = { λ s. IsShot s.key s.bytes.items };
}

impl Tile {
    ghost use Rattle.std.specs.Prelude.{◌≡◌};
    ghost use Rattle.lattice_core.specs.Tiles.{span_of};
    ghost use Rattle.ppm_write.specs.Pictures.{IsPictureOf};
    ghost use Rattle.tile_shot.specs.Named.{IsShot};

    /// What names the tile.
    pub fn key(&self) -> &TileKey
        ensures { result.now ≡ self.now.key }
    {
        &self.key
    }

    /// The bytes of its pixels.
    pub fn bytes(&self) -> &[u8]
        ensures value { result.now ≡ self.now.bytes }
        ensures shot { IsShot self.now.key result.now }
        ensures size { IsPictureOf (span_of self.now.key.view self.now.key.tile).w (span_of self.now.key.view self.now.key.tile).h result.now }
    {
        &self.bytes
    }
}

ghost use Rattle.std.specs.Prelude.{◌≡◌, ◌<◌, IfOk};
ghost use Rattle.lattice_core.specs.Views.{IsChecked};
ghost use Rattle.lattice_core.specs.Tiles.{tiles_of};
ghost use Rattle.tile_shot.specs.Named.{name_of};

/// Shoots a tile of a view: each pixel is the colour of what its ray meets first of the regions without air, at its
/// brightness, and black where it meets nothing. The tile is named by what the scene's regions are, in their order.
pub fn shoot_tile(alloc: Global, scene: &Scene, view: &View, tile: u32) -> Result<Tile, Memory>
    requires view { IsChecked view.now }
    requires tile { tile < tiles_of view.now }
    ensures { IfOk result (λ t. t.key ≡ name_of scene.now view.now tile) }
{
    let key = TileKey::new(alloc, scene, view, tile)?;
    let order = near_order(alloc, scene, view.dir)?;
    let bytes = pixels(alloc, scene, &order, view, view.span(tile))?;
    Ok(Tile { key, bytes })
}
