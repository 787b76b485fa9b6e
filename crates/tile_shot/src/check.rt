//! The overlaps on the rays of a tile.
ghost use Rattle.std.specs.Prelude.{◌≡◌, ◌<◌, ◌≤◌, ◌+◌, ◌∷◌, [], IfOk, IfErr, OnErr, All, length, map};
ghost use Rattle.lattice_core.specs.Views.{IsChecked};
ghost use Rattle.lattice_core.specs.Tiles.{tiles_of, span_of, IsPartOf};
ghost use Rattle.overlap_list.specs.declared.overlap.TheConstants.{MOST_PAIRS};
ghost use Rattle.overlap_list.specs.Overlaps.{IsTooMany};
ghost use Rattle.tile_shot.specs.Reports.{report_of, tile_report, spots_of, HaveRisingPlaces};
ghost use Rattle.tile_shot.specs.Merges.{ArePairs, merged};
ghost use Rattle.tile_shot.specs.RaySteps.{spots_above, pair_by_place};

use crate::merge::merge_pairs;
use crate::report_law::report_laws;
use lattice_core::{TileSpan, View};
use memory_core::Memory;
use overlap_list::{CheckFault, OverlapRun};
use shot_core::{Pair, Scene, check_ray, overlap_candidates};
use std::alloc::Global;

/// An overlap of two regions of a scene on one ray.
fn pair_on_ray(scene: &Scene, column: u32, row: u32, run: &OverlapRun) -> Pair
    requires one { run.now.one < length scene.now }
    requires two { run.now.two < length scene.now }
    ensures { result ≡ pair_by_place scene.now column row run.now }
{
    Pair {
        one: scene.regions()[run.one as usize].place(),
        two: scene.regions()[run.two as usize].place(),
        rays: 1,
        column,
        row,
        start: run.start,
        end: run.end,
    }
}

fn pairs_on_ray(
    alloc: Global,
    scene: &Scene,
    column: u32,
    row: u32,
    runs: &[OverlapRun],
) -> Result<Vec<Pair>, Memory>
    requires { All (λ r. (r.one < r.two) × (r.two < length scene.now)) runs.now }
    ensures { IfOk result (λ v. v.items ≡ map (pair_by_place scene.now column row) runs.now) }
{
    let mut pairs = Vec::new(alloc);
    for run in runs {
        pairs.push(pair_on_ray(scene, column, row, run))?;
    }
    Ok(pairs)
}

/// Adds the overlaps on the ray of a pixel. Where there are none it costs no more than the ray.
fn add_ray(
    alloc: Global,
    scene: &Scene,
    view: &View,
    column: u32,
    row: u32,
    pairs: &mut Vec<Pair>,
) -> Result<(), CheckFault>
    requires places { HaveRisingPlaces scene.now }
    requires view { IsChecked view.now }
    requires column { column < view.now.w }
    requires row { row < view.now.h }
    requires pairs { ArePairs pairs.old.items }
    ensures added { IfOk result (λ _. pairs.new.items ≡ merged pairs.old.items (report_of scene.now view.now (record { column = column; row = row } ∷ []))) }
    ensures most { IfOk result (λ _. length pairs.old.items ≤ MOST_PAIRS → length pairs.new.items ≤ MOST_PAIRS) }
    ensures fault { IfErr result (IsTooMany (length (merged pairs.old.items (report_of scene.now view.now (record { column = column; row = row } ∷ []))))) }
{
    let runs = match check_ray(alloc, scene, &view.ray(column, row)) {
        Ok(runs) => runs,
        Err(fault) => return Err(fault),
    };
    if runs.is_empty() {
        return Ok(());
    }
    let Ok(more) = pairs_on_ray(alloc, scene, column, row, &runs) else {
        return Err(CheckFault::Memory);
    };
    merge_pairs(alloc, pairs, &more)
}

/// Adds the overlaps on the rays of a row of a span.
fn add_row(
    alloc: Global,
    scene: &Scene,
    view: &View,
    span: &TileSpan,
    row: u32,
    pairs: &mut Vec<Pair>,
) -> Result<(), CheckFault>
    requires places { HaveRisingPlaces scene.now }
    requires view { IsChecked view.now }
    requires span { IsPartOf span.now view.now }
    requires from_row { span.now.row ≤ row }
    requires to_row { row < span.now.row + span.now.h }
    requires pairs { pairs.old.items ≡ report_of scene.now view.now (spots_above span.now row) }
    ensures added { IfOk result (λ _. pairs.new.items ≡ report_of scene.now view.now (spots_above span.now (row + 1))) }
    ensures most { IfOk result (λ _. length pairs.old.items ≤ MOST_PAIRS → length pairs.new.items ≤ MOST_PAIRS) }
    ensures fault { IfErr result (IsTooMany (length (report_of scene.now view.now (spots_of span.now)))) }
{
    for column in span.column..span.column + span.w {
        if let Err(fault) = add_ray(alloc, scene, view, column, row, pairs) {
            return Err(fault);
        }
    }
    Ok(())
}

/// The overlaps on the rays of a tile.
fn check_rays(alloc: Global, scene: &Scene, view: &View, tile: u32) -> Result<Vec<Pair>, CheckFault>
    requires places { HaveRisingPlaces scene.now }
    requires view { IsChecked view.now }
    requires tile { tile < tiles_of view.now }
    ensures report { IfOk result (λ v. v.items ≡ tile_report scene.now view.now tile) }
    ensures most { IfOk result (λ v. length v.items ≤ MOST_PAIRS) }
    ensures fault { IfErr result (IsTooMany (length (tile_report scene.now view.now tile))) }
{
    let span = view.span(tile);
    let mut pairs = Vec::new(alloc);
    for row in span.row..span.row + span.h {
        if let Err(fault) = add_row(alloc, scene, view, &span, row, &mut pairs) {
            return Err(fault);
        }
    }
    Ok(pairs)
}

/// The pairs of regions that overlap on the rays of a tile, by the lower place and then the higher one. `TooMany` comes
/// exactly where there are over `MOST_PAIRS`. Only regions that may overlap another one are shot, and no ray where there are
/// none of them.
pub fn check_tile(
    alloc: Global,
    scene: &Scene,
    view: &View,
    tile: u32,
) -> Result<Vec<Pair>, CheckFault>
    requires view { IsChecked view.now }
    requires tile { tile < tiles_of view.now }
    ensures report { IfOk result (λ v. v.items ≡ tile_report scene.now view.now tile) }
    ensures most { IfOk result (λ v. length v.items ≤ MOST_PAIRS) }
    ensures fault { IfErr result (IsTooMany (length (tile_report scene.now view.now tile))) }
{
    report_laws();
    if scene.regions().is_empty() {
        return Ok(Vec::new(alloc));
    }
    let Ok(candidates) = overlap_candidates(alloc, scene) else {
        return Err(CheckFault::Memory);
    };
    if candidates.regions().is_empty() {
        return Ok(Vec::new(alloc));
    }
    check_rays(alloc, &candidates, view, tile)
}
