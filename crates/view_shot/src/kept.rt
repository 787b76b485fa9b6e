//! The tiles that a session keeps.
ghost use Rattle.std.specs.Prelude.{◌≡◌, ◌↔◌, [], IfOk, IsTrue, OnErr, OnOk, true, false};
ghost use Rattle.tile_shot.specs.Named.{is_small_name};
ghost use Rattle.view_shot.specs.Kept.{is_kept, moved};
ghost use Rattle.view_shot.specs.Steps.{with_small};

use memory_core::Memory;
use std::alloc::Global;
use std::marker::Model;
use std::sync::Arc;
use tile_cache::{Named, TileCache};
use tile_shot::{Tile, TileKey};

/// A tile that several hold: who keeps it, and a picture that is made of it. Contracts see it as its name and its bytes.
#[derive(Drop)]
pub struct SharedTile {
    tile: Arc<Tile>,
}

impl Model for SharedTile {
    ghost use Rattle.std.specs.Arc.{arc_value};
    ghost use Rattle.tile_shot.specs.Named.{NamedTile, tile_code};

    ghost Value = { NamedTile };

    ghost coded = { tile_code };

    ghost view = { λ s. arc_value s.tile };
}

impl SharedTile {
    ghost use Rattle.std.specs.Prelude.{◌≡◌, IfOk};

    /// A tile that can be shared.
    pub(crate) fn new(alloc: Global, tile: Tile) -> Result<SharedTile, Memory>
        ensures { IfOk result (λ shared. shared ≡ tile) }
    {
        let tile = Arc::new(alloc, tile)?;
        Ok(SharedTile { tile })
    }

    /// Another share of the tile.
    pub(crate) fn share(&self) -> Result<SharedTile, Memory>
        ensures { IfOk result (λ shared. shared ≡ self.now) }
    {
        let tile = self.tile.clone()?;
        Ok(SharedTile { tile })
    }

    /// The tile.
    pub(crate) fn tile(&self) -> &Tile
        ensures { result.now ≡ self.now }
    {
        &self.tile
    }
}

impl Named<TileKey> for SharedTile {
    ghost named = { λ s. s.key };

    fn key(&self) -> &TileKey {
        self.tile.key()
    }
}

/// Tiles that are kept, at most 4,096. Contracts see them as the list of their names, the last used first. Each has small
/// bodies.
#[derive(Drop)]
pub struct KeptTiles {
    cache: TileCache<TileKey, SharedTile>,
}

impl Model for KeptTiles {
    ghost use Rattle.std.specs.Prelude.{List};
    ghost use Rattle.std.specs.Coded.{coded_list};
    ghost use Rattle.std.specs.Map.{keys_of};
    ghost use Rattle.tile_shot.specs.Named.{TileName, name_code};
    ghost use Rattle.view_shot.specs.Steps.{AreSmall};

    ghost Value = { List TileName };

    ghost coded = { coded_list name_code };

    ghost view = { λ s. keys_of s.cache };

    ghost invariant = { λ s. AreSmall (keys_of s.cache) };
}

impl KeptTiles {
    ghost use Rattle.view_shot.specs.Steps.{AreSmall};

    /// Keeps nothing yet. It takes a few bytes, and no room for tiles.
    pub fn new(alloc: Global) -> Result<KeptTiles, Memory>
        ensures { IfOk result (λ kept. kept ≡ []) }
    {
        let cache = TileCache::new(alloc)?;
        Ok(KeptTiles { cache })
    }

    /// Whether nothing is kept.
    pub(crate) fn is_empty(&self) -> bool
        ensures empty { IsTrue result ↔ (self.now ≡ []) }
        ensures small { AreSmall self.now }
    {
        self.cache.len() == 0
    }

    /// Whether a tile of this name is kept. The order stays.
    pub(crate) fn has(&self, name: &TileKey) -> bool
        ensures { result ≡ is_kept self.now name.now }
    {
        self.cache.has(name)
    }

    /// The kept tile of this name, which goes to the front, also where there is no memory for a share of it.
    pub(crate) fn reuse(&mut self, name: &TileKey) -> Result<SharedTile, Memory>
        requires { is_kept self.old name.now ≡ true }
        ensures named { IfOk result (λ tile. tile.key ≡ name.now) }
        ensures moved { self.new ≡ moved self.old name.now }
    {
        match self.cache.find(name) {
            Some(tile) => tile.share(),
            None => unreachable!(),
        }
    }

    /// Puts a tile that was shot at the front, where its bodies are small; the last one falls out where 4,096 are kept. Only one
    /// with small bodies takes memory, and where there is none all stays.
    pub(crate) fn keep(&mut self, tile: &SharedTile) -> Result<(), Memory>
        requires { is_kept self.old tile.now.key ≡ false }
        ensures kept { OnOk result (self.new ≡ with_small self.old tile.now.key) }
        ensures memory { OnErr result (self.new ≡ self.old) }
        ensures small { OnErr result (is_small_name tile.now.key ≡ true) }
    {
        let name = tile.tile().key();
        if !name.is_small() {
            return Ok(());
        }
        self.cache.keep(name.share()?, tile.share()?)
    }

    /// Keeps nothing any more. It takes no memory.
    pub fn clear(&mut self)
        ensures { self.new ≡ [] }
    {
        self.cache.clear();
    }
}
