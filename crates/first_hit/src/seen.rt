//! What a ray meets first of the regions without air.

ghost use Rattle.std.specs.Prelude.{◌≡◌, ◌<◌, IfOk, IfSome, length};
ghost use Rattle.std.specs.Option.{option_map};
ghost use Rattle.lattice_core.specs.declared.limit.TheConstants.{WORLD};
ghost use Rattle.lattice_core.specs.Limits.{IsWithin};
ghost use Rattle.shot_core.specs.FirstShots.{IsOrderOf, first_seen, seen_of};

use crate::beside::Marks;
use crate::front::{Part, front_of};
use crate::hit::hit_at;
use bool_weave::Woven;
use lattice_core::Ray;
use memory_core::Memory;
use shot_core::{Scene, Seen, level_of_hit};
use std::alloc::Global;

/// Lists that rays use one after the other, so that a ray takes no memory once they have grown.
#[derive(Debug, Drop)]
pub struct Scratch {
    segments: Vec<Woven>,
    parts: Vec<Part>,
    marks: Marks,
}

impl Scratch {
    /// Empty lists. It takes no memory.
    pub fn new(alloc: Global) -> Scratch {
        Scratch {
            segments: Vec::new(alloc),
            parts: Vec::new(alloc),
            marks: Marks::new(alloc),
        }
    }
}

/// What a ray meets first of the regions without air: the first partition that `shoot` would answer whose region has no air,
/// without its end. `order` has the number of each region; the search is fastest where nearer ones come first.
pub fn shoot_first(
    scene: &Scene,
    order: &[u32],
    ray: &Ray,
    scratch: &mut Scratch,
) -> Result<Option<Seen>, Memory>
    requires order { IsOrderOf (length scene.now) order.now }
    requires origin { IsWithin WORLD ray.now.origin }
    ensures seen { IfOk result (λ r. r ≡ option_map seen_of (first_seen scene.now ray.now)) }
    ensures region { IfOk result (λ r. IfSome r (λ s. s.region < length scene.now)) }
{
    if scene.regions().is_empty() {
        return Ok(None);
    }
    let segments = &mut scratch.segments;
    let parts = &mut scratch.parts;
    let marks = &mut scratch.marks;
    let Some(front) = front_of(segments, parts, marks, scene, ray, order)? else {
        return Ok(None);
    };
    let hit = hit_at(marks, scene, segments, parts, &front)?;
    Ok(Some(Seen {
        region: front.region,
        start: front.start,
        hit,
        level: level_of_hit(scene, &hit, ray),
    }))
}
