ghost use Rattle.std.specs.Prelude.{IfOk};
ghost use Rattle.lattice_core.specs.declared.limit.TheConstants.{WORLD};
ghost use Rattle.lattice_core.specs.Limits.{IsWithin};
ghost use Rattle.plain_shot.specs.Steps.{IsLaid};

use crate::claim::{PlainClaims, claims_on};
use crate::cut::cuts_of;
use crate::interval::intervals_between;
use crate::segment::{PlainSegment, segments_of};
use lattice_core::Ray;
use memory_core::Memory;
use ranged_position::RangedPos;
use shot_core::Scene;
use std::alloc::Global;

/// All that is read of a ray: its segments, its cuts, the number of intervals between them, and what regions claim.
#[derive(Debug, Drop)]
pub(crate) struct Laid {
    pub(crate) segments: Vec<PlainSegment>,
    pub(crate) cuts: Vec<RangedPos>,
    pub(crate) count: usize,
    pub(crate) regions: Vec<PlainClaims>,
}

/// Reads all of a ray.
pub(crate) fn laid_of(alloc: Global, scene: &Scene, ray: &Ray) -> Result<Laid, Memory>
    requires { IsWithin WORLD ray.now.origin }
    ensures { IfOk result (IsLaid scene.now ray.now) }
{
    let segments = segments_of(alloc, scene, ray)?;
    let cuts = cuts_of(alloc, &segments)?;
    let intervals = intervals_between(alloc, &cuts)?;
    let regions = claims_on(alloc, &segments, scene, &intervals)?;
    let count = intervals.len();
    Ok(Laid {
        segments,
        cuts,
        count,
        regions,
    })
}
