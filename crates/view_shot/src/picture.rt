//! The pixels of a view, put together from its tiles.
ghost use Rattle.std.specs.Prelude.{◌≡◌, ◌≤◌, ◌<◌, ◌*◌, ◌^◌, ◌++◌, ◌∷◌, [], IfOk, OnErr, OnOk, length, map, vec_len};
ghost use Rattle.std.specs.Arc.{arc_value};
ghost use Rattle.std.specs.Option.{option_map};
ghost use Rattle.lattice_core.specs.Views.{IsChecked};
ghost use Rattle.lattice_core.specs.Tiles.{tiles_of};
ghost use Rattle.ppm_write.specs.Pictures.{IsPictureOf};
ghost use Rattle.tile_shot.specs.Pixels.{view_bytes};
ghost use Rattle.view_shot.specs.Kept.{AreMovedInPart, IsPartWay, after_picture, in_turn, moved, tile_name, tile_names};
ghost use Rattle.view_shot.specs.Steps.{AreKept, AreLacking, CanPut, HasPut, IsNotKept, IsPut, IsTileOf, found, if_kept, lacking, names_of};

use crate::executor::{Executor, shoot_tiles};
use crate::job::TileJob;
use crate::kept::{KeptTiles, SharedTile};
use crate::plan::Plan;
use lattice_core::View;
use memory_core::Memory;
use outside_core::Gate;
use ppm_write::copy_tile;
use shot_core::Scene;
use std::alloc::Global;
use std::sync::Arc;
use std::thread::Threads;
use std::vec::Vec;
use tile_shot::{TileKey, pixel_laws};

/// How many bytes the pixels of a view have.
pub fn pixel_bytes(view: &View) -> u32
    requires { IsChecked view.now }
    ensures value { result ≡ 3 * (view.now.w * view.now.h) }
    ensures few { result ≤ 12582912 }
{
    3 * (view.w * view.h)
}

/// The bytes of a picture of a view, all of them 0.
fn black(alloc: Global, view: &View) -> Result<Vec<u8>, Memory>
    requires { IsChecked view.now }
    ensures { IfOk result (λ picture. IsPictureOf view.now.w view.now.h picture.items) }
{
    Ok(vec![in alloc; 0; pixel_bytes(view) as usize]?)
}

/// The kept tile of a name, where there is a name; it goes to the front.
fn reuse_one(name: &Option<TileKey>, kept: &mut KeptTiles) -> Result<Option<SharedTile>, Memory>
    requires { AreKept kept.old (found (name.now ∷ [])) }
    ensures named { IfOk result (λ slot. option_map (λ t. t.key) slot ≡ name.now) }
    ensures moved { kept.new ≡ in_turn moved kept.old (found (name.now ∷ [])) }
{
    match name {
        Some(name) => Ok(Some(kept.reuse(name)?)),
        None => Ok(None),
    }
}

/// The tiles of a plan that are reused, each at its number. They go to the front in the order of their numbers.
fn reuse_all(
    alloc: Global,
    plan: &Plan,
    kept: &mut KeptTiles,
) -> Result<Vec<Option<SharedTile>>, Memory>
    requires { AreKept kept.old (found plan.now.names.items) }
    ensures named { IfOk result (λ slots. names_of slots.items ≡ plan.now.names.items) }
    ensures moved { OnOk result (kept.new ≡ in_turn moved kept.old (found plan.now.names.items)) }
    ensures memory { OnErr result (AreMovedInPart kept.old (found plan.now.names.items) kept.new) }
{
    let mut slots = Vec::new(alloc);
    for i in 0..plan.names.len() {
        slots.push(reuse_one(&plan.names[i], kept)?)?;
    }
    Ok(slots)
}

/// Puts a number at the end of the numbers, where the tile of that number is lacking.
fn push_lacking(tiles: &mut Vec<u32>, name: &Option<TileKey>, tile: u32) -> Result<(), Memory>
    ensures { OnOk result (tiles.new.items ≡ tiles.old.items ++ lacking (name.now ∷ []) tile) }
{
    match name {
        Some(_) => Ok(()),
        None => {
            tiles.push(tile)?;
            Ok(())
        }
    }
}

/// The numbers of the tiles that a plan lacks.
fn lacking_tiles(alloc: Global, plan: &Plan) -> Result<Vec<u32>, Memory>
    requires { length plan.now.names.items < 2 ^ 32 }
    ensures tiles { IfOk result (λ tiles. tiles.items ≡ lacking plan.now.names.items 0) }
    ensures few { IfOk result (λ tiles. vec_len tiles < 2 ^ 32) }
{
    let mut tiles = Vec::new(alloc);
    for i in 0..plan.names.len() {
        push_lacking(&mut tiles, &plan.names[i], i as u32)?;
    }
    Ok(tiles)
}

/// The tiles that a plan lacks, in the order of their numbers, as a job.
pub(crate) fn lacking_job(
    alloc: Global,
    scene: &Arc<Scene>,
    view: &View,
    plan: &Plan,
) -> Result<TileJob, Memory>
    requires view { IsChecked view.now }
    requires plan { length plan.now.names.items ≡ tiles_of view.now }
    ensures scene { IfOk result (λ job. arc_value job.scene ≡ arc_value scene.now) }
    ensures view { IfOk result (λ job. job.view ≡ view.now) }
    ensures tiles { IfOk result (λ job. job.tiles.items ≡ lacking plan.now.names.items 0) }
{
    let tiles = lacking_tiles(alloc, plan)?;
    Ok(TileJob {
        scene: scene.clone()?,
        view: *view,
        tiles,
    })
}

/// Shoots the tiles that a plan lacks, in the order of their numbers.
fn shoot_lacking<R: Threads + Sync, G: Gate + Sync>(
    executor: &Executor<R, G>,
    alloc: Global,
    scene: &Arc<Scene>,
    view: &View,
    plan: &Plan,
) -> Result<Vec<SharedTile>, Memory>
    requires view { IsChecked view.now }
    requires plan { length plan.now.names.items ≡ tiles_of view.now }
    ensures { IfOk result (λ shot. AreLacking (arc_value scene.now) view.now plan.now.names.items shot.items) }
{
    let job = lacking_job(alloc, scene, view, plan)?;
    shoot_tiles(executor, alloc, &job)
}

/// Puts a tile into the picture of its view.
fn put_tile(view: &View, tile: u32, one: &SharedTile, picture: &mut Vec<u8>)
    requires view { IsChecked view.now }
    requires tile { tile < tiles_of view.now }
    requires one { IsTileOf view.now tile one.now }
    requires picture { IsPictureOf view.now.w view.now.h picture.old.items }
    ensures { IsPut view.now tile one.now picture.old.items picture.new.items }
{
    copy_tile(view, tile, one.tile().bytes(), picture);
}

/// Puts the tile of a number into the picture of its view: the one that is reused, or the next of those that were shot, which
/// is kept from now on where it is small.
fn put_next(
    view: &View,
    tile: u32,
    slot: &Option<SharedTile>,
    shot: &[SharedTile],
    next: &mut usize,
    kept: &mut KeptTiles,
    picture: &mut Vec<u8>,
) -> Result<(), Memory>
    requires view { IsChecked view.now }
    requires tile { tile < tiles_of view.now }
    requires picture { IsPictureOf view.now.w view.now.h picture.old.items }
    requires there { CanPut view.now tile slot.now shot.now next.old kept.old }
    ensures put { IfOk result (λ _. HasPut view.now tile slot.now shot.now next.old next.new kept.old kept.new picture.old.items picture.new.items) }
    ensures memory { OnErr result (IsNotKept slot.now shot.now next.old kept.old kept.new) }
{
    match slot {
        Some(reused) => {
            put_tile(view, tile, reused, picture);
            Ok(())
        }
        None => {
            let one = &shot[*next];
            put_tile(view, tile, one, picture);
            *next += 1;
            kept.keep(one)
        }
    }
}

/// The pixels of a view of a scene, put together from the tiles that are kept and those that were shot because the plan lacks
/// them.
pub(crate) fn join_view(
    alloc: Global,
    scene: &Scene,
    view: &View,
    plan: &Plan,
    shot: &[SharedTile],
    kept: &mut KeptTiles,
) -> Result<Vec<u8>, Memory>
    requires view { IsChecked view.now }
    requires plan { plan.now.names.items ≡ map (if_kept kept.old) (tile_names scene.now view.now) }
    requires shot { AreLacking scene.now view.now plan.now.names.items shot.now }
    ensures pixels { IfOk result (λ picture. picture.items ≡ view_bytes scene.now view.now) }
    ensures kept { OnOk result (kept.new ≡ after_picture kept.old (tile_names scene.now view.now)) }
    ensures memory { OnErr result (IsPartWay kept.old (tile_names scene.now view.now) kept.new) }
{
    pixel_laws();
    let _regions = scene.regions();
    let slots = reuse_all(alloc, plan, kept)?;
    let mut picture = black(alloc, view)?;
    let mut next = 0;
    for tile in 0..view.tiles() {
        let slot = &slots[tile as usize];
        put_next(view, tile, slot, shot, &mut next, kept, &mut picture)?;
    }
    Ok(picture)
}

/// The pixels of a view of a scene, row by row from the top, by a plan of what is kept. The tiles that are kept are reused, and
/// go to the front in the order of their numbers; the others are shot, and then those with small bodies are put at the front in
/// the order of their numbers. Where there is no memory, the first so many of these steps were done, and no more is kept.
pub fn shoot_view<R: Threads + Sync, G: Gate + Sync>(
    executor: &Executor<R, G>,
    alloc: Global,
    scene: &Arc<Scene>,
    view: &View,
    plan: &Plan,
    kept: &mut KeptTiles,
) -> Result<Vec<u8>, Memory>
    requires view { IsChecked view.now }
    requires plan { plan.now.names.items ≡ map (if_kept kept.old) (tile_names (arc_value scene.now) view.now) }
    ensures pixels { IfOk result (λ picture. picture.items ≡ view_bytes (arc_value scene.now) view.now) }
    ensures kept { OnOk result (kept.new ≡ after_picture kept.old (tile_names (arc_value scene.now) view.now)) }
    ensures memory { OnErr result (IsPartWay kept.old (tile_names (arc_value scene.now) view.now) kept.new) }
{
    let shot = shoot_lacking(executor, alloc, scene, view, plan)?;
    join_view(alloc, scene, view, plan, &shot, kept)
}
