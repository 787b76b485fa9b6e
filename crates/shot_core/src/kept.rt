//! The regions of a scene that a tile of a view needs, and those that may overlap another one.

ghost use Rattle.std.specs.Prelude.{◌≡◌, ◌<◌, ◌++◌, ◌∷◌, [], All, IfOk, cond, length, map, slice_index_or};
ghost use Rattle.std.specs.Arc.{arc_value};
ghost use Rattle.lattice_core.specs.Views.{IsChecked};
ghost use Rattle.lattice_core.specs.Tiles.{tiles_of};
ghost use Rattle.shot_core.specs.Regions.{has_air};
ghost use Rattle.shot_core.specs.RegionBoxes.{region_box};
ghost use Rattle.shot_core.specs.Pruned.{share_points, kept_for};
ghost use Rattle.shot_core.specs.Steps.{no_region};
ghost use Rattle.shot_core.specs.Candidates.{do_touch, touches_some, is_candidate, candidates_of};

use crate::region::{PrepRegion, SceneRegion};
use crate::scene::Scene;
use item_list::Items;
use lattice_core::{Box3, View, boxes_meet};
use memory_core::Memory;
use std::alloc::Global;
use std::sync::Arc;

/// The greatest number of regions whose boxes are compared with one another.
pub const MOST_COMPARED: usize = 2_048;

/// The same region once more, which shares its path and its body with it.
fn share(region: &SceneRegion) -> Result<SceneRegion, Memory>
    ensures { IfOk result (λ r. r ≡ region.now) }
{
    let path = Arc::try_clone(region.path())?;
    let body = Arc::try_clone(region.body())?;
    Ok(SceneRegion::new(region.place(), path, body))
}

/// Adds a share of a region where it is kept.
fn add_kept(kept: &mut Vec<SceneRegion>, region: &SceneRegion, is_kept: bool) -> Result<(), Memory>
    ensures { IfOk result (λ _. kept.new.items ≡ kept.old.items ++ cond is_kept (region.now ∷ []) []) }
{
    if is_kept {
        kept.push(share(region)?)?;
    }
    Ok(())
}

fn box_of(region: &SceneRegion) -> Box3
    ensures { result ≡ region_box region.now.body }
{
    region.body().bounds()
}

/// Whether the box of a region and another box share a point.
fn reaches(region: &SceneRegion, place: &Box3) -> bool
    ensures { result ≡ share_points (region_box region.now.body) place.now }
{
    boxes_meet(&box_of(region), place)
}

/// Shares of the regions at some places in their list.
fn shares_of(
    alloc: Global,
    regions: &[SceneRegion],
    places: &[u32],
) -> Result<Vec<SceneRegion>, Memory>
    requires { All (λ i. i < length regions.now) places.now }
    ensures { IfOk result (λ v. v.items ≡ map (λ i. slice_index_or regions.now i no_region) places.now) }
{
    let mut kept = Vec::with_capacity(alloc, places.len())?;
    for place in places {
        kept.push(share(&regions[*place as usize])?)?;
    }
    Ok(kept)
}

/// The scene of those regions whose box meets the box of a tile's rays, in their order and at their places. On each ray of the
/// tile they show first what all regions show first, and overlap as all do. A region that is kept shares its path and its body
/// with the scene.
pub fn kept_regions(alloc: Global, scene: &Scene, view: &View, tile: u32) -> Result<Scene, Memory>
    requires view { IsChecked view.now }
    requires tile { tile < tiles_of view.now }
    ensures { IfOk result (λ s. s ≡ kept_for scene.now view.now tile) }
{
    let mut places = Vec::new(alloc);
    scene.reach_tile(view, tile, &mut places)?;
    let kept = shares_of(alloc, scene.regions(), &places)?;
    Scene::unindexed(alloc, kept)
}

/// Shares of regions, in their order.
fn shares(alloc: Global, regions: &[SceneRegion]) -> Result<Vec<SceneRegion>, Memory>
    ensures { IfOk result (λ v. v.items ≡ regions.now) }
{
    let mut all = Vec::with_capacity(alloc, regions.len())?;
    for region in regions {
        all.push(share(region)?)?;
    }
    Ok(all)
}

/// The same scene with an index of its instances, where these are not few. It shares the paths and the bodies.
pub fn indexed(alloc: Global, scene: &Scene) -> Result<Scene, Memory>
    ensures { IfOk result (λ s. s ≡ scene.now) }
{
    let regions = shares(alloc, scene.regions())?;
    Scene::new(alloc, regions)
}

/// What the regions at some places in their list are.
fn bodies_at(
    alloc: Global,
    regions: &[SceneRegion],
    places: &[u32],
) -> Result<Items<Arc<PrepRegion>>, Memory>
    requires { All (λ i. i < length regions.now) places.now }
    ensures { IfOk result (λ bodies. map arc_value bodies ≡ map (λ i. (slice_index_or regions.now i no_region).body) places.now) }
{
    let mut bodies = Vec::with_capacity(alloc, places.len())?;
    for place in places {
        bodies.push(regions[*place as usize].body().clone()?)?;
    }
    Ok(Items::of_vec(bodies))
}

/// What the regions of `kept_regions` are, in their order. It makes no scene.
pub fn kept_bodies(
    alloc: Global,
    scene: &Scene,
    view: &View,
    tile: u32,
) -> Result<Items<Arc<PrepRegion>>, Memory>
    requires view { IsChecked view.now }
    requires tile { tile < tiles_of view.now }
    ensures { IfOk result (λ bodies. map arc_value bodies ≡ map (λ r. r.body) (kept_for scene.now view.now tile)) }
{
    let mut places = Vec::new(alloc);
    scene.reach_tile(view, tile, &mut places)?;
    bodies_at(alloc, scene.regions(), &places)
}

fn has_air(region: &SceneRegion) -> bool
    ensures { result ≡ has_air region.now.body }
{
    region.body().air() != 0
}

/// Whether two regions, neither with air, have boxes that share a point.
fn do_touch(region: &SceneRegion, other: &SceneRegion) -> bool
    ensures { result ≡ do_touch region.now other.now }
{
    !has_air(region) && !has_air(other) && reaches(region, &box_of(other))
}

/// Whether a region touches one of another place.
fn touches_some(region: &SceneRegion, regions: &[SceneRegion]) -> bool
    ensures { result ≡ touches_some regions.now region.now }
{
    regions.iter().any(|other| region.place() != other.place() && do_touch(region, other))
}

/// Whether a region may overlap another one. Each of more than `MOST_COMPARED` regions may, since so many are not compared.
fn is_candidate(region: &SceneRegion, regions: &[SceneRegion]) -> bool
    ensures { result ≡ is_candidate regions.now region.now }
{
    MOST_COMPARED < regions.len() || touches_some(region, regions)
}

/// Shares of the regions that may overlap another one, in their order.
fn candidates(alloc: Global, regions: &[SceneRegion]) -> Result<Vec<SceneRegion>, Memory>
    ensures { IfOk result (λ v. v.items ≡ candidates_of regions.now) }
{
    let mut kept = Vec::new(alloc);
    for region in regions {
        add_kept(&mut kept, region, is_candidate(region, regions))?;
    }
    Ok(kept)
}

/// The scene of those regions without air whose box meets that of another region without air, in their order and at their
/// places; of more than `MOST_COMPARED` regions it is all. On each ray they overlap as all regions do.
pub fn overlap_candidates(alloc: Global, scene: &Scene) -> Result<Scene, Memory>
    ensures { IfOk result (λ s. s ≡ candidates_of scene.now) }
{
    let kept = candidates(alloc, scene.regions())?;
    Scene::new(alloc, kept)
}
