ghost use Rattle.std.specs.Prelude.{◌≡◌, ◌<◌, ◌^◌, IfOk, length, map, filter};
ghost use Rattle.lattice_core.specs.declared.limit.TheConstants.{WORLD};
ghost use Rattle.lattice_core.specs.Limits.{IsWithin};
ghost use Rattle.bool_weave.specs.Cuts.{cuts_of};
ghost use Rattle.overlap_list.specs.Winners.{winner_of};
ghost use Rattle.overlap_list.specs.Partitions.{won_runs, or_zero, partition_of};
ghost use Rattle.shot_core.specs.Shots.{level_of_hit, lit_by, lit_of};
ghost use Rattle.shot_core.specs.Steps.{IsHitOn};
ghost use Rattle.plain_shot.specs.Steps.{is_won_run, IsLaid, lit_of_run};

use crate::claim::PlainClaims;
use crate::cut::cut_at;
use crate::hit::hit_of;
use crate::laid::{Laid, laid_of};
use crate::run::{PlainRun, runs_below};
use crate::segment::PlainSegment;
use crate::winner::{is_won_run, winner_of};
use lattice_core::Ray;
use memory_core::Memory;
use overlap_list::{Hit, Partition};
use ranged_position::RangedPos;
use shot_core::{Lit, Scene};
use std::alloc::Global;

/// Those of the runs that are maximal with one winner.
fn won_of(
    alloc: Global,
    regions: &[PlainClaims],
    runs: &[PlainRun],
) -> Result<Vec<PlainRun>, Memory>
    ensures { IfOk result (λ v. v.items ≡ filter (is_won_run regions.now) runs.now) }
{
    let mut kept = Vec::new(alloc);
    for run in runs {
        if is_won_run(regions, run) {
            kept.push(*run)?;
        }
    }
    Ok(kept)
}

/// The maximal runs of intervals with one winner, among all runs.
fn won_runs(alloc: Global, regions: &[PlainClaims], count: usize) -> Result<Vec<PlainRun>, Memory>
    requires { count < 2 ^ 32 }
    ensures { IfOk result (λ v. v.items ≡ won_runs regions.now count) }
{
    let runs = runs_below(alloc, count)?;
    won_of(alloc, regions, &runs)
}

/// The place of the region that wins an interval, where one does.
fn region_of(regions: &[PlainClaims], k: usize) -> u32
    requires { length regions.now < 2 ^ 32 }
    ensures { result ≡ or_zero (winner_of regions.now k) }
{
    match winner_of(regions, k) {
        Some(place) => place as u32,
        None => 0,
    }
}

fn partition_of(
    alloc: Global,
    segments: &[PlainSegment],
    cuts: &[RangedPos],
    regions: &[PlainClaims],
    run: &PlainRun,
) -> Result<Partition, Memory>
    requires cuts { cuts.now ≡ cuts_of segments.now }
    requires few { length regions.now < 2 ^ 32 }
    ensures { IfOk result (λ p. p ≡ partition_of segments.now regions.now run.now) }
{
    let hit = hit_of(alloc, segments, cuts, regions, run.from())?;
    Ok(Partition {
        region: region_of(regions, run.from()),
        start: cut_at(cuts, run.from()).place(),
        end: cut_at(cuts, run.to()).place(),
        hit,
    })
}

/// How bright the hit instance is at the face that is hit.
fn level_of_hit(scene: &Scene, ray: &Ray, hit: &Hit) -> u8
    requires origin { IsWithin WORLD ray.now.origin }
    requires hit { IsHitOn scene.now ray.now hit.now }
    ensures { result ≡ level_of_hit scene.now ray.now hit.now }
{
    match scene.instance(hit.instance) {
        Some(solid) => solid.level(hit.face, ray),
        None => 255,
    }
}

fn lit_by(scene: &Scene, ray: &Ray, partition: &Partition) -> Lit
    requires origin { IsWithin WORLD ray.now.origin }
    requires hit { IsHitOn scene.now ray.now partition.now.hit }
    ensures { result ≡ lit_by scene.now ray.now partition.now }
{
    Lit {
        region: partition.region,
        start: partition.start,
        end: partition.end,
        hit: partition.hit,
        level: level_of_hit(scene, ray, &partition.hit),
    }
}

/// The partition that a run makes, with the level of its hit.
fn lit_of_run(
    alloc: Global,
    scene: &Scene,
    ray: &Ray,
    laid: &Laid,
    run: &PlainRun,
) -> Result<Lit, Memory>
    requires origin { IsWithin WORLD ray.now.origin }
    requires laid { IsLaid scene.now ray.now laid.now }
    ensures { IfOk result (λ l. l ≡ lit_of_run scene.now ray.now run.now) }
{
    let partition = partition_of(alloc, &laid.segments, &laid.cuts, &laid.regions, run)?;
    Ok(lit_by(scene, ray, &partition))
}

fn lit_of_runs(
    alloc: Global,
    scene: &Scene,
    ray: &Ray,
    laid: &Laid,
    runs: &[PlainRun],
) -> Result<Vec<Lit>, Memory>
    requires origin { IsWithin WORLD ray.now.origin }
    requires laid { IsLaid scene.now ray.now laid.now }
    ensures { IfOk result (λ v. v.items ≡ map (lit_of_run scene.now ray.now) runs.now) }
{
    let mut all = Vec::new(alloc);
    for run in runs {
        all.push(lit_of_run(alloc, scene, ray, laid, run)?)?;
    }
    Ok(all)
}

/// The partitions of a ray, by their definition alone: all runs of intervals are tried for being maximal with one winner,
/// and all candidates for being hit.
pub fn plain_partitions(alloc: Global, scene: &Scene, ray: &Ray) -> Result<Vec<Lit>, Memory>
    requires { IsWithin WORLD ray.now.origin }
    ensures { IfOk result (λ v. v.items ≡ lit_of scene.now ray.now) }
{
    let laid = laid_of(alloc, scene, ray)?;
    let runs = won_runs(alloc, &laid.regions, laid.count)?;
    lit_of_runs(alloc, scene, ray, &laid, &runs)
}
