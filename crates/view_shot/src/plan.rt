//! How the picture of a view is made: what of its tiles is kept.
ghost use Rattle.std.specs.Prelude.{◌≡◌, ◌<◌, ◌^◌, IfOk, length, map};
ghost use Rattle.lattice_core.specs.Views.{IsChecked};
ghost use Rattle.lattice_core.specs.Tiles.{tiles_of};
ghost use Rattle.view_shot.specs.Kept.{reused, shot, tile_name, tile_names};
ghost use Rattle.view_shot.specs.Steps.{found, if_kept};

use crate::kept::KeptTiles;
use lattice_core::View;
use memory_core::Memory;
use shot_core::{Scene, kept_bodies};
use std::alloc::Global;
use std::vec::Vec;
use tile_shot::{TileKey, are_small};

/// For each tile of a view what names it, where a tile of that name is kept.
#[derive(Drop)]
pub struct Plan {
    pub(crate) names: Vec<Option<TileKey>>,
}

/// What names a tile, where it is kept. Nothing is looked up for bodies that are too large to be kept.
fn look_up(
    alloc: Global,
    scene: &Scene,
    view: &View,
    tile: u32,
    kept: &KeptTiles,
) -> Result<Option<TileKey>, Memory>
    requires view { IsChecked view.now }
    requires tile { tile < tiles_of view.now }
    ensures { IfOk result (λ name. name ≡ if_kept kept.now (tile_name scene.now view.now tile)) }
{
    if kept.is_empty() {
        return Ok(None);
    }
    let bodies = kept_bodies(alloc, scene, view, tile)?;
    if !are_small(bodies.items()) {
        return Ok(None);
    }
    let name = TileKey::of_bodies(alloc, bodies, view, tile)?;
    if kept.has(&name) {
        Ok(Some(name))
    } else {
        Ok(None)
    }
}

/// Looks up all tiles of a view of a scene, and leaves what is kept as it is.
pub fn plan_view(
    alloc: Global,
    scene: &Scene,
    view: &View,
    kept: &KeptTiles,
) -> Result<Plan, Memory>
    requires { IsChecked view.now }
    ensures { IfOk result (λ plan. plan.names.items ≡ map (if_kept kept.now) (tile_names scene.now view.now)) }
{
    let mut names = Vec::new(alloc);
    for tile in 0..view.tiles() {
        names.push(look_up(alloc, scene, view, tile, kept)?)?;
    }
    Ok(Plan { names })
}

impl Plan {
    /// How many tiles are reused.
    pub fn reused(&self) -> u32
        requires { length self.now.names.items < 2 ^ 32 }
        ensures { result ≡ length (found self.now.names.items) }
    {
        let mut reused = 0;
        for i in 0..self.names.len() {
            if self.names[i].is_some() {
                reused += 1;
            }
        }
        reused
    }
}
