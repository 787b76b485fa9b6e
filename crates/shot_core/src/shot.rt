ghost use Rattle.std.specs.Prelude.{◌≡◌, ◌<◌, ◌≤◌, IfOk, IfErr, All, length, map};
ghost use Rattle.overlap_list.specs.declared.overlap.TheConstants.{MOST_PAIRS};
ghost use Rattle.lattice_core.specs.declared.limit.TheConstants.{WORLD};
ghost use Rattle.lattice_core.specs.Limits.{IsWithin};
ghost use Rattle.bool_weave.specs.Cuts.{IsWoven};
ghost use Rattle.overlap_list.specs.Overlaps.{IsTooMany};
ghost use Rattle.overlap_list.specs.Laws.{AreInOrder, IsPartOfRay, IsWonPart, HasHit, AreByPlace};
ghost use Rattle.shot_core.specs.MetBoxes.{met_count};
ghost use Rattle.shot_core.specs.Shots.{woven_of, claims_on, level_of_hit, lit_by, lit_of, overlaps_on};
ghost use Rattle.shot_core.specs.Laws.{parts_of, IsHitInScene, HoldsAllClaims, AreFirstOverlaps};
ghost use Rattle.shot_core.specs.Points.{stretches_of, IsTrueOfPoints};
ghost use Rattle.shot_core.specs.OverlapPoints.{AreTrueOverlaps};
ghost use Rattle.shot_core.specs.Steps.{numbered_claims, HasRisen, IsHitOn, renumbered, renumbered_run};

use crate::meet::weave_scene;
use crate::scene::Scene;
use bool_weave::{Weave, claims};
use lattice_core::Ray;
use memory_core::Memory;
use overlap_list::{CheckFault, Hit, OverlapRun, Partition, RegionClaims, overlaps, settle};
use std::alloc::Global;
use std::marker::Brand;
use std::sync::ledger::{Blank, Ledger};
use step_counter::Steps;
use surd_order::Pos;

/// A part of a ray that one region has, with how bright it is where the ray meets it.
#[derive(Clone, Copy, Debug, PartialEq, Eq)]
pub struct Lit {
    /// The region's number in its scene, counted from 0.
    pub region: u32,
    /// Where it starts.
    pub start: Pos,
    /// Where it ends.
    pub end: Pos,
    /// What is hit at its start.
    pub hit: Hit,
    /// The brightness there, from 55 to 255.
    pub level: u8,
}

/// What a region claims of what is woven, by its number.
pub fn region_claims(
    alloc: Global,
    weave: &Weave,
    scene: &Scene,
    region: u32,
) -> Result<RegionClaims, Memory>
    requires { region < length scene.now }
    ensures { IfOk result (λ r. r ≡ numbered_claims weave.now scene.now region) }
{
    let body = scene.regions()[region as usize].body();
    let first = scene.first(region);
    let row = claims(alloc, weave, body.tree(), first)?;
    Ok(RegionClaims {
        air: body.air() != 0,
        first,
        count: body.solids().len() as u32,
        claims: row,
    })
}

/// What the regions of these numbers claim.
fn claims_of_all(
    alloc: Global,
    weave: &Weave,
    scene: &Scene,
    numbers: &[u32],
) -> Result<Vec<RegionClaims>, Memory>
    requires { All (λ n. n < length scene.now) numbers.now }
    ensures { IfOk result (λ v. v.items ≡ map (numbered_claims weave.now scene.now) numbers.now) }
{
    let mut all = Vec::new(alloc);
    for number in numbers {
        all.push(region_claims(alloc, weave, scene, *number)?)?;
    }
    Ok(all)
}

/// How bright the hit instance is at the face that is hit.
pub fn level_of_hit(scene: &Scene, hit: &Hit, ray: &Ray) -> u8
    requires origin { IsWithin WORLD ray.now.origin }
    requires hit { IsHitOn scene.now ray.now hit.now }
    ensures { result ≡ level_of_hit scene.now ray.now hit.now }
{
    match scene.instance(hit.instance) {
        Some(solid) => solid.level(hit.face, ray),
        None => 255,
    }
}

/// The partition of a scene from one of the regions of these numbers.
fn lit_by(scene: &Scene, numbers: &[u32], partition: &Partition, ray: &Ray) -> Lit
    requires origin { IsWithin WORLD ray.now.origin }
    requires region { partition.now.region < length numbers.now }
    requires hit { IsHitOn scene.now ray.now partition.now.hit }
    ensures { result ≡ lit_by scene.now ray.now (renumbered numbers.now partition.now) }
{
    Lit {
        region: numbers[partition.region as usize],
        start: partition.start,
        end: partition.end,
        hit: partition.hit,
        level: level_of_hit(scene, &partition.hit, ray),
    }
}

fn lit_by_all(
    alloc: Global,
    scene: &Scene,
    numbers: &[u32],
    partitions: &[Partition],
    ray: &Ray,
) -> Result<Vec<Lit>, Memory>
    requires origin { IsWithin WORLD ray.now.origin }
    requires regions { All (λ p. p.region < length numbers.now) partitions.now }
    requires hits { All (λ p. IsHitOn scene.now ray.now p.hit) partitions.now }
    ensures { IfOk result (λ v. v.items ≡ map (λ p. lit_by scene.now ray.now (renumbered numbers.now p)) partitions.now) }
{
    let mut lit = Vec::new(alloc);
    for partition in partitions {
        lit.push(lit_by(scene, numbers, partition, ray))?;
    }
    Ok(lit)
}

/// The partitions of a ray, in order, each with the level of its hit. A step is a call of `Placed::segment`: where it answers
/// `Memory`, the counter has risen by those that were made.
pub fn shoot<L: Ledger>(
    alloc: Global,
    scene: &Scene,
    ray: &Ray,
    steps: &mut Steps<L>,
) -> Result<Vec<Lit>, Memory>
    requires { IsWithin WORLD ray.now.origin }
    ensures lit { IfOk result (λ v. v.items ≡ lit_of scene.now ray.now) }
    ensures segments { IfOk result (λ _. IsWoven (woven_of scene.now ray.now)) }
    ensures order { IfOk result (λ v. AreInOrder (parts_of v.items)) }
    ensures places { IfOk result (λ v. All (λ l. IsPartOfRay l.start l.end) v.items) }
    ensures regions { IfOk result (λ v. All (λ l. l.region < length scene.now) v.items) }
    ensures won { IfOk result (λ v. All (IsWonPart (woven_of scene.now ray.now) (claims_on scene.now ray.now)) (parts_of v.items)) }
    ensures all { IfOk result (λ v. HoldsAllClaims scene.now ray.now v.items) }
    ensures hits { IfOk result (λ v. All (HasHit (woven_of scene.now ray.now) (claims_on scene.now ray.now)) (parts_of v.items)) }
    ensures real { IfOk result (λ v. All (IsHitInScene scene.now ray.now) v.items) }
    ensures points { IfOk result (λ v. IsTrueOfPoints scene.now ray.now (stretches_of v.items)) }
    ensures steps { HasRisen (met_count scene.now ray.now) steps.old steps.new }
{
    let mut weave = Weave::new(alloc)?;
    let numbers = weave_scene(alloc, &mut weave, scene, ray, steps)?;
    if weave.woven().is_empty() {
        return Ok(Vec::new(alloc));
    }
    let regions = claims_of_all(alloc, &weave, scene, &numbers)?;
    let partitions = settle(alloc, &weave, &regions)?;
    lit_by_all(alloc, scene, &numbers, &partitions, ray)
}

/// Makes an overlap of two of the regions of these numbers one of two regions of the scene.
fn renumber(numbers: &[u32], run: &mut OverlapRun)
    requires one { run.old.one < length numbers.now }
    requires two { run.old.two < length numbers.now }
    ensures { run.new ≡ renumbered_run numbers.now run.old }
{
    run.one = numbers[run.one as usize];
    run.two = numbers[run.two as usize];
}

fn renumber_all(numbers: &[u32], runs: &mut Vec<OverlapRun>)
    requires { All (λ r. (r.one < length numbers.now) × (r.two < length numbers.now)) runs.old.items }
    ensures { runs.new.items ≡ map (renumbered_run numbers.now) runs.old.items }
{
    for run in runs.iter_mut() {
        renumber(numbers, run);
    }
}

/// The overlaps on a ray that counts its steps for nobody.
fn check_uncounted<L: Ledger>(
    blank: Blank,
    alloc: Global,
    scene: &Scene,
    ray: &Ray,
) -> Result<Vec<OverlapRun>, CheckFault>
    requires name { blank.name ≡ L.name }
    requires parts { blank.parts ≡ L.parts }
    requires some { 0 < blank.parts }
    requires origin { IsWithin WORLD ray.now.origin }
    ensures runs { IfOk result (λ v. v.items ≡ overlaps_on scene.now ray.now) }
    ensures segments { IfOk result (λ _. IsWoven (woven_of scene.now ray.now)) }
    ensures order { IfOk result (λ v. AreByPlace (length scene.now) v.items) }
    ensures first { IfOk result (λ v. AreFirstOverlaps scene.now ray.now v.items) }
    ensures places { IfOk result (λ v. All (λ r. IsPartOfRay r.start r.end) v.items) }
    ensures points { IfOk result (λ v. AreTrueOverlaps scene.now ray.now v.items) }
    ensures most { IfOk result (λ v. length v.items ≤ MOST_PAIRS) }
    ensures fault { IfErr result (IsTooMany (length (overlaps_on scene.now ray.now))) }
{
    let mut steps: Steps<L> = Steps::new(blank);
    let Ok(mut weave) = Weave::new(alloc) else {
        return Err(CheckFault::Memory);
    };
    let Ok(numbers) = weave_scene(alloc, &mut weave, scene, ray, &mut steps) else {
        return Err(CheckFault::Memory);
    };
    if weave.woven().is_empty() {
        return Ok(Vec::new(alloc));
    }
    let Ok(regions) = claims_of_all(alloc, &weave, scene, &numbers) else {
        return Err(CheckFault::Memory);
    };
    let mut runs = overlaps(alloc, &weave, &regions)?;
    renumber_all(&numbers, &mut runs);
    Ok(runs)
}

/// The first run of each pair of regions without air that overlap on a ray, by the lower number and then the higher one.
/// `TooMany` comes where over `MOST_PAIRS` pairs overlap.
pub fn check_ray(alloc: Global, scene: &Scene, ray: &Ray) -> Result<Vec<OverlapRun>, CheckFault>
    requires { IsWithin WORLD ray.now.origin }
    ensures runs { IfOk result (λ v. v.items ≡ overlaps_on scene.now ray.now) }
    ensures segments { IfOk result (λ _. IsWoven (woven_of scene.now ray.now)) }
    ensures order { IfOk result (λ v. AreByPlace (length scene.now) v.items) }
    ensures first { IfOk result (λ v. AreFirstOverlaps scene.now ray.now v.items) }
    ensures places { IfOk result (λ v. All (λ r. IsPartOfRay r.start r.end) v.items) }
    ensures points { IfOk result (λ v. AreTrueOverlaps scene.now ray.now v.items) }
    ensures most { IfOk result (λ v. length v.items ≤ MOST_PAIRS) }
    ensures fault { IfErr result (IsTooMany (length (overlaps_on scene.now ray.now))) }
{
    check_uncounted::<Brand>(Blank::new(1), alloc, scene, ray)
}
