//! The pieces of a view, each of which one thread can shoot.
ghost use Rattle.std.specs.Prelude.{◌≤◌, ◌<◌, ◌+◌, ◌^◌, All, vec_len};
ghost use Rattle.lattice_core.specs.Views.{IsChecked};
ghost use Rattle.lattice_core.specs.Tiles.{tiles_of};

use crate::kept::SharedTile;
use crate::named::{SharedPairs, places_of};
use lattice_core::View;
use memory_core::Memory;
use shot_core::{Scene, kept_bodies, kept_regions};
use std::alloc::Global;
use std::sync::Arc;
use std::vec::Vec;
use tile_shot::{TileKey, report_laws, shoot_tile};
use tile_workers::Job;

/// Tiles of a picture that are to be shot.
#[derive(Drop)]
pub struct TileJob {
    pub(crate) scene: Arc<Scene>,
    pub(crate) view: View,
    pub(crate) tiles: Vec<u32>,
    pub(crate) ghost checked: { IsChecked view },
    pub(crate) ghost within: { All (λ tile. tile < tiles_of view) tiles.items },
    pub(crate) ghost few: { vec_len tiles < 2 ^ 32 },
}

impl TileJob {
    ghost use Rattle.std.specs.Prelude.{◌≡◌, ◌<◌, IfOk, slice_index_or, vec_len};
    ghost use Rattle.std.specs.Arc.{arc_value};
    ghost use Rattle.view_shot.specs.Kept.{tile_name};

    /// What names the tile of a piece.
    fn name(&self, alloc: Global, i: u32) -> Result<TileKey, Memory>
        requires { i < vec_len self.now.tiles }
        ensures { IfOk result (λ key. key ≡ tile_name (arc_value self.now.scene) self.now.view (slice_index_or self.now.tiles.items i 0)) }
    {
        let tile = self.tiles[i as usize];
        let bodies = kept_bodies(alloc, &self.scene, &self.view, tile)?;
        TileKey::of_bodies(alloc, bodies, &self.view, tile)
    }
}

impl Job for TileJob {
    ghost use Rattle.std.specs.Prelude.{slice_index_or, vec_len};
    ghost use Rattle.view_shot.specs.Jobs.{GivesTile, IsShotOf};

    type Out = SharedTile;

    ghost pieces = { λ job. vec_len job.tiles };

    ghost tiles = { λ job i. slice_index_or job.tiles.items i 0 };

    ghost gives = { GivesTile };

    ghost names = { IsShotOf };

    fn count(&self) -> u32 {
        self.tiles.len() as u32
    }

    fn tile(&self, i: u32) -> u32 {
        self.tiles[i as usize]
    }

    fn run(&self, alloc: Global, i: u32) -> Result<SharedTile, Memory> {
        let tile = self.tiles[i as usize];
        let kept = kept_regions(alloc, &self.scene, &self.view, tile)?;
        let shot = shoot_tile(alloc, &kept, &self.view, tile)?;
        let _shot = shot.bytes();
        SharedTile::new(alloc, shot)
    }

    /// Another share of a tile, where it is named as that of a piece.
    fn again(&self, alloc: Global, i: u32, out: &SharedTile) -> Result<Option<SharedTile>, Memory> {
        let _shot = out.tile().bytes();
        if *out.tile().key() == self.name(alloc, i)? {
            Ok(Some(out.share()?))
        } else {
            Ok(None)
        }
    }
}

/// Tiles of a report, so many from a first one on.
#[derive(Drop)]
pub struct CheckJob {
    pub(crate) scene: Arc<Scene>,
    pub(crate) view: View,
    pub(crate) first: u32,
    pub(crate) count: u32,
    pub(crate) ghost checked: { IsChecked view },
    pub(crate) ghost within: { first + count ≤ tiles_of view },
}

impl CheckJob {
    ghost use Rattle.std.specs.Prelude.{◌<◌};
    ghost use Rattle.view_shot.specs.Jobs.{IsCheckOf, NamesCheck};
    ghost use Rattle.view_shot.specs.Named.{IsNamedReport};
    ghost use Rattle.view_shot.specs.declared.named.NamedPairs.{NamedPairs as Held};

    /// Pairs that are named as those of a piece are those of its tile. Nothing is done: the contract is the law.
    fn piece_law(&self, i: u32)
        requires { i < self.now.count }
        ensures { (named : Held) → IsNamedReport named.key named.places named.pairs.pairs → NamesCheck self.now i named → IsCheckOf self.now i named.pairs }
    {
        report_laws();
        let _regions = self.scene.regions();
    }
}

impl Job for CheckJob {
    ghost use Rattle.std.specs.Prelude.{◌+◌};
    ghost use Rattle.std.specs.Arc.{arc_value};
    ghost use Rattle.view_shot.specs.Jobs.{IsCheckOf, NamesCheck};

    type Out = SharedPairs;

    ghost pieces = { λ job. job.count };

    ghost tiles = { λ job i. job.first + i };

    ghost gives = { λ job i shared. IsCheckOf job i (arc_value shared.named).pairs };

    ghost names = { λ job i shared. NamesCheck job i (arc_value shared.named) };

    fn count(&self) -> u32 {
        self.count
    }

    fn tile(&self, i: u32) -> u32 {
        self.first + i
    }

    fn run(&self, alloc: Global, i: u32) -> Result<SharedPairs, Memory> {
        self.piece_law(i);
        let tile = self.first + i;
        let kept = kept_regions(alloc, &self.scene, &self.view, tile)?;
        let shared = SharedPairs::new(alloc, &kept, &self.view, tile)?;
        Ok(shared)
    }

    /// Another share of pairs, where they are named as those of a piece.
    fn again(
        &self,
        alloc: Global,
        i: u32,
        out: &SharedPairs,
    ) -> Result<Option<SharedPairs>, Memory> {
        self.piece_law(i);
        let _right = out.pairs();
        let tile = self.first + i;
        let kept = kept_regions(alloc, &self.scene, &self.view, tile)?;
        let key = TileKey::new(alloc, &kept, &self.view, tile)?;
        let places = places_of(alloc, &kept)?;
        if out.is_of(&key, &places) {
            Ok(Some(out.share()?))
        } else {
            Ok(None)
        }
    }
}
