//! What a ray in a lattice direction meets of a scene.

ghost use Rattle.std.specs.Prelude.{◌≡◌, ◌<◌, IfOk, All, length, map};
ghost use Rattle.lattice_core.specs.declared.limit.TheConstants.{FAR};
ghost use Rattle.lattice_core.specs.declared.ray.Ray.{Ray};
ghost use Rattle.lattice_core.specs.Units.{unit_of};
ghost use Rattle.order_laws.specs.Parts.{number_of};
ghost use Rattle.shot_core.specs.Shots.{lit_of};
ghost use Rattle.shot_core.specs.Steps.{numbered_claims, renumbered};
ghost use Rattle.oblique_ray.specs.Points.{IsTrueOfSlant};
ghost use Rattle.slant_ray.specs.Rays.{direction_of, IsSlantRay};
ghost use Rattle.oblique_ray.specs.ShotSteps.{slab_by_ranks};
ghost use Rattle.oblique_ray.specs.Shots.{slabs_on, slab_of_lit};

use crate::cut::cut_at;
use crate::piece::{cuts_of, pieces_of, touched, weave_pieces};
use crate::slab::Slab;
use bool_weave::Weave;
use memory_core::Memory;
use overlap_list::{Partition, RegionClaims, settle};
use shot_core::{Scene, region_claims};
use slant_ray::SlantRay;
use std::alloc::Global;
use surd_quot::QPos;

/// What the regions of these numbers claim.
fn claims_of_all(
    alloc: Global,
    weave: &Weave,
    scene: &Scene,
    numbers: &[u32],
) -> Result<Vec<RegionClaims>, Memory>
    requires { All (λ n. n < length scene.now) numbers.now }
    ensures { IfOk result (λ v. v.items ≡ map (numbered_claims weave.now scene.now) numbers.now) }
{
    let mut all = Vec::new(alloc);
    for number in numbers {
        all.push(region_claims(alloc, weave, scene, *number)?)?;
    }
    Ok(all)
}

/// The part of one of the regions of these numbers between the cuts that have the numbers of a partition's ends.
fn slab_by(cuts: &[QPos], numbers: &[u32], partition: &Partition) -> Slab
    requires cuts { 0 < length cuts.now }
    requires region { partition.now.region < length numbers.now }
    ensures { result ≡ slab_by_ranks cuts.now (renumbered numbers.now partition.now) }
{
    Slab {
        region: numbers[partition.region as usize],
        start: cut_at(cuts, &partition.start),
        end: cut_at(cuts, &partition.end),
    }
}

fn slabs_by(
    alloc: Global,
    cuts: &[QPos],
    numbers: &[u32],
    partitions: &[Partition],
) -> Result<Vec<Slab>, Memory>
    requires cuts { 0 < length cuts.now }
    requires regions { All (λ p. p.region < length numbers.now) partitions.now }
    ensures { IfOk result (λ v. v.items ≡ map (λ p. slab_by_ranks cuts.now (renumbered numbers.now p)) partitions.now) }
{
    let mut slabs = Vec::new(alloc);
    for partition in partitions {
        slabs.push(slab_by(cuts, numbers, partition))?;
    }
    Ok(slabs)
}

/// The partitions of a ray in a lattice direction, in order: the parts that regions have of it, whose ends are counted in steps of
/// the direction.
pub fn slant_shot(alloc: Global, scene: &Scene, ray: &SlantRay) -> Result<Vec<Slab>, Memory>
    requires { IsSlantRay ray.now }
    ensures slabs { IfOk result (λ v. v.items ≡ slabs_on scene.now ray.now.origin (direction_of ray.now)) }
    ensures regions { IfOk result (λ v. All (λ s. s.region < length scene.now) v.items) }
    ensures points { IfOk result (λ v. IsTrueOfSlant FAR scene.now ray.now.origin (direction_of ray.now) v.items) }
    ensures axes { IfOk result (λ v. (plain : Ray) → plain.origin ≡ ray.now.origin → unit_of plain.dir ≡ direction_of ray.now → v.items ≡ map slab_of_lit (lit_of scene.now plain)) }
{
    let pieces = pieces_of(alloc, scene, ray)?;
    if pieces.is_empty() {
        return Ok(Vec::new(alloc));
    }
    let numbers = touched(alloc, scene, &pieces)?;
    let cuts = cuts_of(alloc, &pieces)?;
    let mut weave = Weave::new(alloc)?;
    weave_pieces(&mut weave, &cuts, &pieces)?;
    let regions = claims_of_all(alloc, &weave, scene, &numbers)?;
    let partitions = settle(alloc, &weave, &regions)?;
    slabs_by(alloc, &cuts, &numbers, &partitions)
}
