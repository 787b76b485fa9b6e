//! The overlaps of a scene on the rays of a view.
ghost use Rattle.std.specs.Prelude.{◌≡◌, ◌≤◌, ◌<◌, ◌+◌, IfOk, IfErr, length};
ghost use Rattle.std.specs.Arc.{arc_value};
ghost use Rattle.lattice_core.specs.Views.{IsChecked};
ghost use Rattle.lattice_core.specs.Tiles.{tiles_of};
ghost use Rattle.overlap_list.specs.declared.overlap.TheConstants.{MOST_PAIRS};
ghost use Rattle.overlap_list.specs.Overlaps.{IsTooMany};
ghost use Rattle.tile_shot.specs.Reports.{AddUp, is_in_tiles, report_of, spots_where, tile_report, view_report};
ghost use Rattle.view_shot.specs.Flights.{posted_of};
ghost use Rattle.view_shot.specs.Jobs.{AreReports};
ghost use Rattle.view_shot.specs.Steps.{IsTileReport};

use crate::executor::{Executor, check_tiles};
use crate::job::CheckJob;
use crate::named::{SharedPairs, TilePairs};
use lattice_core::View;
use memory_core::Memory;
use outside_core::Gate;
use overlap_list::{CheckFault, MOST_PAIRS};
use shot_core::{Pair, Scene};
use std::alloc::Global;
use std::sync::Arc;
use std::thread::Threads;
use std::vec::Vec;
use tile_shot::{merge_pairs, report_laws};

/// How many tiles are shot at first, and at least.
const FEW_TILES: u32 = 16;

/// How many tiles are shot at a time at most, and posted of a check.
const MANY_TILES: u32 = 1_024;

/// How many tiles are shot next, where so many pairs overlap on those before them: fewer where each has many, as the pairs of
/// all of them are held until they are added.
fn round_size(pairs: usize, done: u32, left: u32) -> u32
    requires { 1 ≤ left }
    ensures some { 1 ≤ result }
    ensures most { result ≤ left }
{
    let room = (MOST_PAIRS / pairs.max(1)) as u32;
    let size = room.min(done).min(MANY_TILES).max(FEW_TILES);
    size.min(left)
}

/// Adds the overlaps on the rays of a tile to those of the tiles before it.
fn add_tile(
    alloc: Global,
    scene: &Scene,
    view: &View,
    tile: u32,
    shot: &TilePairs,
    report: &mut Vec<Pair>,
) -> Result<(), CheckFault>
    requires view { IsChecked view.now }
    requires tile { tile < tiles_of view.now }
    requires shot { IsTileReport scene.now view.now tile shot.now.pairs }
    requires before { report.old.items ≡ report_of scene.now view.now (spots_where view.now (is_in_tiles view.now tile)) }
    ensures added { IfOk result (λ _. AddUp report.old.items (tile_report scene.now view.now tile) report.new.items) }
    ensures most { IfOk result (λ _. length report.old.items ≤ MOST_PAIRS → length report.new.items ≤ MOST_PAIRS) }
    ensures fault { IfErr result (IsTooMany (length (view_report scene.now view.now))) }
{
    report_laws();
    let _regions = scene.regions();
    match &shot.pairs {
        Some(pairs) => merge_pairs(alloc, report, pairs.items()),
        None => Err(CheckFault::TooMany),
    }
}

/// Adds the overlaps on the rays of tiles that were shot, from a first one on, to those of the tiles before them.
fn add_tiles(
    alloc: Global,
    scene: &Scene,
    view: &View,
    first: u32,
    shots: &[SharedPairs],
    report: &mut Vec<Pair>,
) -> Result<(), CheckFault>
    requires view { IsChecked view.now }
    requires within { first + length shots.now ≤ tiles_of view.now }
    requires shots { AreReports scene.now view.now first (length shots.now) shots.now }
    requires before { report.old.items ≡ report_of scene.now view.now (spots_where view.now (is_in_tiles view.now first)) }
    ensures added { IfOk result (λ _. report.new.items ≡ report_of scene.now view.now (spots_where view.now (is_in_tiles view.now (first + length shots.now)))) }
    ensures most { IfOk result (λ _. length report.old.items ≤ MOST_PAIRS → length report.new.items ≤ MOST_PAIRS) }
    ensures fault { IfErr result (IsTooMany (length (view_report scene.now view.now))) }
{
    report_laws();
    let _regions = scene.regions();
    for i in 0..shots.len() {
        add_tile(
            alloc,
            scene,
            view,
            first + i as u32,
            shots[i].pairs(),
            report,
        )?;
    }
    Ok(())
}

/// Adds the overlaps on the rays of so many tiles to those of the tiles before them.
fn add_round<R: Threads + Sync, G: Gate + Sync>(
    executor: &Executor<R, G>,
    alloc: Global,
    scene: &Arc<Scene>,
    view: &View,
    first: u32,
    count: u32,
    report: &mut Vec<Pair>,
) -> Result<(), CheckFault>
    requires view { IsChecked view.now }
    requires within { first + count ≤ tiles_of view.now }
    requires before { report.old.items ≡ report_of (arc_value scene.now) view.now (spots_where view.now (is_in_tiles view.now first)) }
    ensures added { IfOk result (λ _. report.new.items ≡ report_of (arc_value scene.now) view.now (spots_where view.now (is_in_tiles view.now (first + count)))) }
    ensures most { IfOk result (λ _. length report.old.items ≤ MOST_PAIRS → length report.new.items ≤ MOST_PAIRS) }
    ensures fault { IfErr result (IsTooMany (length (view_report (arc_value scene.now) view.now))) }
{
    let Ok(share) = scene.clone() else {
        return Err(CheckFault::Memory);
    };
    let job = CheckJob {
        scene: share,
        view: *view,
        first,
        count,
    };
    let Ok(shots) = check_tiles(executor, alloc, &job) else {
        return Err(CheckFault::Memory);
    };
    add_tiles(alloc, scene, view, first, &shots, report)
}

/// The first tiles of a view, as a job.
pub(crate) fn first_job(scene: &Arc<Scene>, view: &View) -> Result<CheckJob, Memory>
    requires { IsChecked view.now }
    ensures scene { IfOk result (λ job. arc_value job.scene ≡ arc_value scene.now) }
    ensures view { IfOk result (λ job. job.view ≡ view.now) }
    ensures first { IfOk result (λ job. job.first ≡ 0) }
    ensures count { IfOk result (λ job. job.count ≡ posted_of view.now) }
{
    Ok(CheckJob {
        scene: scene.clone()?,
        view: *view,
        first: 0,
        count: view.tiles().min(MANY_TILES),
    })
}

/// The overlaps on all rays of a view, where those on the rays of the first tiles are known: the others are found tile by tile.
pub(crate) fn check_rest<R: Threads + Sync, G: Gate + Sync>(
    executor: &Executor<R, G>,
    alloc: Global,
    scene: &Arc<Scene>,
    view: &View,
    done: u32,
    known: Vec<Pair>,
) -> Result<Vec<Pair>, CheckFault>
    requires view { IsChecked view.now }
    requires within { done ≤ tiles_of view.now }
    requires before { known.items ≡ report_of (arc_value scene.now) view.now (spots_where view.now (is_in_tiles view.now done)) }
    requires most { length known.items ≤ MOST_PAIRS }
    ensures pairs { IfOk result (λ report. report.items ≡ view_report (arc_value scene.now) view.now) }
    ensures most { IfOk result (λ v. length v.items ≤ MOST_PAIRS) }
    ensures fault { IfErr result (IsTooMany (length (view_report (arc_value scene.now) view.now))) }
{
    report_laws();
    let _regions = scene.regions();
    let tiles = view.tiles();
    let mut report = known;
    let mut first = done;
    while first < tiles {
        let count = round_size(report.len(), first, tiles - first);
        add_round(executor, alloc, scene, view, first, count, &mut report)?;
        first += count;
    }
    Ok(report)
}

/// The overlaps on all rays of a view, of which so many tiles were shot: the others are found tile by tile.
pub(crate) fn check_behind<R: Threads + Sync, G: Gate + Sync>(
    executor: &Executor<R, G>,
    alloc: Global,
    scene: &Arc<Scene>,
    view: &View,
    count: u32,
    shots: &[SharedPairs],
) -> Result<Vec<Pair>, CheckFault>
    requires view { IsChecked view.now }
    requires within { count ≤ tiles_of view.now }
    requires count { length shots.now ≡ count }
    requires shots { AreReports (arc_value scene.now) view.now 0 count shots.now }
    ensures pairs { IfOk result (λ report. report.items ≡ view_report (arc_value scene.now) view.now) }
    ensures most { IfOk result (λ v. length v.items ≤ MOST_PAIRS) }
    ensures fault { IfErr result (IsTooMany (length (view_report (arc_value scene.now) view.now))) }
{
    let mut report = Vec::new(alloc);
    match add_tiles(alloc, scene, view, 0, shots, &mut report) {
        Ok(()) => check_rest(executor, alloc, scene, view, count, report),
        Err(fault) => Err(fault),
    }
}

/// The overlaps on all rays of a view, found tile by tile. `TooMany` comes exactly where there are over `MOST_PAIRS` of them.
pub fn check_view<R: Threads + Sync, G: Gate + Sync>(
    executor: &Executor<R, G>,
    alloc: Global,
    scene: &Arc<Scene>,
    view: &View,
) -> Result<Vec<Pair>, CheckFault>
    requires { IsChecked view.now }
    ensures pairs { IfOk result (λ report. report.items ≡ view_report (arc_value scene.now) view.now) }
    ensures most { IfOk result (λ v. length v.items ≤ MOST_PAIRS) }
    ensures fault { IfErr result (IsTooMany (length (view_report (arc_value scene.now) view.now))) }
{
    check_rest(executor, alloc, scene, view, 0, Vec::new(alloc))
}
