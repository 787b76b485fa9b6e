ghost use Rattle.std.specs.Prelude.{◌≡◌, ◌<◌, ◌≤◌, ◌+◌, ◌++◌, ◌∷◌, ◌^◌, [], IfOk, OnOk, All, cond, length, map, slice_get};
ghost use Rattle.std.specs.List.{list_any};
ghost use Rattle.std.specs.List.Sorted.{IsStrictlyIncreasing};
ghost use Rattle.lattice_core.specs.declared.limit.TheConstants.{WORLD};
ghost use Rattle.lattice_core.specs.Limits.{IsWithin};
ghost use Rattle.solid_set.specs.Segments.{segment_of};
ghost use Rattle.bool_weave.specs.declared.woven.Woven.{Woven};
ghost use Rattle.shot_core.specs.declared.limit.TheConstants.{MOST_LEAVES};
ghost use Rattle.shot_core.specs.Regions.{instances_of, IsScene, HaveInstances};
ghost use Rattle.shot_core.specs.Prepared.{instance_of};
ghost use Rattle.shot_core.specs.MetBoxes.{meets_ray, met_count};
ghost use Rattle.shot_core.specs.Shots.{woven_if, woven_from};
ghost use Rattle.shot_core.specs.Steps.{is_some, has_segment, hit_from, owned_from, is_last, noted, with_instance, with_instances, one_if, met_among, HasRisen};

use crate::scene::Scene;
use bool_weave::Weave;
use lattice_core::{Ray, box_meets_ray};
use memory_core::Memory;
use solid_set::Placed;
use std::alloc::Global;
use std::sync::ledger::Ledger;
use step_counter::Steps;

/// Weaves in the segment of an instance, and answers whether it has one. An instance whose box misses the ray has none.
fn weave_solid<L: Ledger>(
    weave: &mut Weave,
    number: u32,
    solid: &Placed,
    ray: &Ray,
    steps: &mut Steps<L>,
) -> Result<bool, Memory>
    requires order { All (λ w. w.instance < number) weave.old }
    requires few { length weave.old + 1 < 2 ^ 31 }
    requires origin { IsWithin WORLD ray.now.origin }
    ensures woven { IfOk result (λ _. weave.new ≡ weave.old ++ woven_if number (segment_of solid.now.surface ray.now)) }
    ensures hit { IfOk result (λ b. b ≡ is_some (segment_of solid.now.surface ray.now)) }
    ensures steps { steps.new ≡ steps.old + one_if (meets_ray solid.now.bounds ray.now) }
{
    if !box_meets_ray(&solid.bounds(), ray) {
        return Ok(false);
    }
    steps.tick();
    let Some(seg) = solid.segment(ray) else {
        return Ok(false);
    };
    weave.weave(&seg, number)?;
    Ok(true)
}

/// Weaves in the segments of a region's instances, the first of which has that number, and answers whether one has any.
fn weave_region<L: Ledger>(
    weave: &mut Weave,
    first: u32,
    solids: &[Placed],
    ray: &Ray,
    steps: &mut Steps<L>,
) -> Result<bool, Memory>
    requires order { All (λ w. w.instance < first) weave.old }
    requires few { length weave.old + length solids.now < 2 ^ 31 }
    requires numbers { first + length solids.now < 2 ^ 31 }
    requires origin { IsWithin WORLD ray.now.origin }
    ensures woven { IfOk result (λ _. weave.new ≡ weave.old ++ woven_from ray.now first (map instance_of solids.now)) }
    ensures hit { IfOk result (λ b. b ≡ list_any (has_segment ray.now) (map instance_of solids.now)) }
    ensures steps { HasRisen (met_among ray.now (map instance_of solids.now)) steps.old steps.new }
{
    let mut is_hit = false;
    for (i, solid) in solids.iter().enumerate() {
        if weave_solid(weave, first + i as u32, solid, ray, steps)? {
            is_hit = true;
        }
    }
    Ok(is_hit)
}

/// Adds the number of a region where it is hit.
fn add_hit(hit: &mut Vec<u32>, number: u32, is_hit: bool) -> Result<(), Memory>
    ensures { IfOk result (λ _. hit.new.items ≡ hit.old.items ++ cond is_hit (number ∷ []) []) }
{
    if is_hit {
        hit.push(number)?;
    }
    Ok(())
}

/// Weaves in the segments of all instances of a scene, each of which is looked at, and answers the numbers of the regions that
/// are hit.
fn weave_all<L: Ledger>(
    alloc: Global,
    weave: &mut Weave,
    scene: &Scene,
    ray: &Ray,
    steps: &mut Steps<L>,
) -> Result<Vec<u32>, Memory>
    requires empty { weave.old ≡ [] }
    requires origin { IsWithin WORLD ray.now.origin }
    ensures woven { IfOk result (λ _. weave.new ≡ woven_from ray.now 0 (instances_of scene.now)) }
    ensures hit { IfOk result (λ hit. hit.items ≡ hit_from ray.now 0 scene.now) }
    ensures steps { HasRisen (met_count scene.now ray.now) steps.old steps.new }
{
    let mut hit = Vec::new(alloc);
    let mut first = 0;
    for (i, region) in scene.regions().iter().enumerate() {
        let solids = region.body().solids();
        let is_hit = weave_region(weave, first, solids, ray, steps)?;
        add_hit(&mut hit, i as u32, is_hit)?;
        first += solids.len() as u32;
    }
    Ok(hit)
}

/// Whether a number is the last one of a list.
fn is_last(numbers: &[u32], number: u32) -> bool
    ensures { result ≡ is_last number numbers.now }
{
    let count = numbers.len();
    if count == 0 {
        return false;
    }
    numbers[count - 1] == number
}

/// Adds the number of a region that is hit, where it is not the last one already.
pub fn note(hit: &mut Vec<u32>, number: u32) -> Result<(), Memory>
    ensures { OnOk result (hit.new.items ≡ noted hit.old.items number) }
{
    if !is_last(hit, number) {
        hit.push(number)?;
    }
    Ok(())
}

/// Weaves in the segment of the instance of a number, and notes its region where it has one.
fn weave_instance<L: Ledger>(
    weave: &mut Weave,
    hit: &mut Vec<u32>,
    scene: &Scene,
    number: u32,
    ray: &Ray,
    steps: &mut Steps<L>,
) -> Result<(), Memory>
    requires order { All (λ w. w.instance < number) weave.old }
    requires few { length weave.old + 1 < 2 ^ 31 }
    requires origin { IsWithin WORLD ray.now.origin }
    ensures state { OnOk result ((weave.new, hit.new.items) ≡ with_instance ray.now number (slice_get (owned_from 0 scene.now) number) (weave.old, hit.old.items)) }
    ensures steps { HasRisen 1 steps.old steps.new }
{
    let Some(solid) = scene.instance(number) else {
        return Ok(());
    };
    if weave_solid(weave, number, solid, ray, steps)? {
        note(hit, scene.owner(number))?;
    }
    Ok(())
}

/// Weaves in the segments of the instances of rising numbers, and answers the numbers of their regions that are hit.
fn weave_instances<L: Ledger>(
    alloc: Global,
    weave: &mut Weave,
    scene: &Scene,
    numbers: &[u32],
    ray: &Ray,
    steps: &mut Steps<L>,
) -> Result<Vec<u32>, Memory>
    requires empty { weave.old ≡ [] }
    requires rising { IsStrictlyIncreasing numbers.now }
    requires few { length numbers.now < 2 ^ 31 }
    requires origin { IsWithin WORLD ray.now.origin }
    ensures state { IfOk result (λ hit. (weave.new, hit.items) ≡ with_instances ray.now (owned_from 0 scene.now) ([], []) numbers.now) }
    ensures steps { HasRisen (length numbers.now) steps.old steps.new }
{
    let mut hit = Vec::new(alloc);
    for number in numbers {
        weave_instance(weave, &mut hit, scene, *number, ray, steps)?;
    }
    Ok(hit)
}

/// Weaves in the segments of all instances of a scene, and answers the numbers of the regions that are hit. Where there is an
/// index of the instances, those are looked at whose boxes meet the ray.
pub(crate) fn weave_scene<L: Ledger>(
    alloc: Global,
    weave: &mut Weave,
    scene: &Scene,
    ray: &Ray,
    steps: &mut Steps<L>,
) -> Result<Vec<u32>, Memory>
    requires empty { weave.old ≡ [] }
    requires origin { IsWithin WORLD ray.now.origin }
    ensures woven { IfOk result (λ _. weave.new ≡ woven_from ray.now 0 (instances_of scene.now)) }
    ensures hit { IfOk result (λ hit. hit.items ≡ hit_from ray.now 0 scene.now) }
    ensures steps { HasRisen (met_count scene.now ray.now) steps.old steps.new }
    ensures sound { IsScene scene.now }
    ensures leaves { HaveInstances scene.now }
{
    let Some(index) = scene.by_instance() else {
        return weave_all(alloc, weave, scene, ray, steps);
    };
    let mut numbers = Vec::new(alloc);
    index.meets_ray(ray, &mut numbers)?;
    weave_instances(alloc, weave, scene, &numbers, ray, steps)
}
