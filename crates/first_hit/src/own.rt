ghost use Rattle.std.specs.Prelude.{◌≡◌, ◌<◌, ◌+◌, ◌++◌, ◌∷◌, ◌^◌, [], true, All, IfOk, length, map};
ghost use Rattle.std.specs.Option.{ForSome};
ghost use Rattle.lattice_core.specs.declared.limit.TheConstants.{WORLD};
ghost use Rattle.lattice_core.specs.Limits.{IsWithin};
ghost use Rattle.surd_order.specs.Range.{IsInRange};
ghost use Rattle.solid_set.specs.Segments.{segment_of};
ghost use Rattle.bool_weave.specs.Cuts.{IsSegment};
ghost use Rattle.bool_weave.specs.Behind.{claims_behind};
ghost use Rattle.shot_core.specs.Prepared.{instance_of};
ghost use Rattle.shot_core.specs.Shots.{woven_if, woven_from};
ghost use Rattle.first_hit.specs.FirstSteps.{IsOfBody, earlier_of, IsFirstClaim, IsOneAlone};

use crate::beside::{Flank, Marks};
use bool_weave::{MaskNode, Woven};
use lattice_core::{Ray, box_meets_ray};
use memory_core::Memory;
use shot_core::PrepRegion;
use solid_set::Placed;
use surd_order::Pos;

/// Adds the segment of an instance, where it has one. An instance whose box misses the ray has none.
fn add_segment(
    segments: &mut Vec<Woven>,
    number: u32,
    solid: &Placed,
    ray: &Ray,
) -> Result<(), Memory>
    requires origin { IsWithin WORLD ray.now.origin }
    ensures segments { IfOk result (λ _. segments.new.items ≡ segments.old.items ++ woven_if number (segment_of solid.now.surface ray.now)) }
    ensures sound { IfOk result (λ _. ForSome (segment_of solid.now.surface ray.now) IsSegment) }
{
    if !box_meets_ray(&solid.bounds(), ray) {
        return Ok(());
    }
    let Some(seg) = solid.segment(ray) else {
        return Ok(());
    };
    segments.push(Woven {
        instance: number,
        seg,
    })?;
    Ok(())
}

/// Adds the segments of a region's instances, the first of which has that number.
pub(crate) fn add_segments(
    segments: &mut Vec<Woven>,
    first: u32,
    solids: &[Placed],
    ray: &Ray,
) -> Result<(), Memory>
    requires sound { All (λ w. IsSegment w.seg) segments.old.items }
    requires numbers { first + length solids.now < 2 ^ 31 }
    requires origin { IsWithin WORLD ray.now.origin }
    ensures segments { IfOk result (λ _. segments.new.items ≡ segments.old.items ++ woven_from ray.now first (map instance_of solids.now)) }
    ensures sound { IfOk result (λ _. All (λ w. IsSegment w.seg) segments.new.items) }
{
    for (i, solid) in solids.iter().enumerate() {
        add_segment(segments, first + i as u32, solid, ray)?;
    }
    Ok(())
}

/// The place, where it is before the best so far and the region claims what lies just behind it.
fn earlier(
    marks: &mut Marks,
    best: Option<Pos>,
    place: Pos,
    own: &[Woven],
    first: u32,
    body: &PrepRegion,
) -> Result<Option<Pos>, Memory>
    requires best { ForSome best IsInRange }
    requires place { IsInRange place }
    requires own { All (IsOfBody first (length body.now.instances)) own.now }
    ensures value { IfOk result (λ r. r ≡ earlier_of (claims_behind own.now body.now.tree first) best place) }
    ensures range { IfOk result (λ r. ForSome r IsInRange) }
{
    if let Some(so_far) = best {
        if !place.cmp(&so_far).is_lt() {
            return Ok(best);
        }
    }
    if marks.claims(own, first, body, &place, Flank::Behind)? {
        return Ok(Some(place));
    }
    Ok(best)
}

/// The first place behind which a region claims, from the segments of its own instances.
fn first_start(
    marks: &mut Marks,
    own: &[Woven],
    first: u32,
    body: &PrepRegion,
) -> Result<Option<Pos>, Memory>
    requires { All (IsOfBody first (length body.now.instances)) own.now }
    ensures { IfOk result (IsFirstClaim own.now body.now.tree first) }
{
    let mut best = None;
    for one in own {
        best = earlier(marks, best, one.seg.start, own, first, body)?;
        best = earlier(marks, best, one.seg.end, own, first, body)?;
    }
    Ok(best)
}

/// Whether a region is its first solid alone.
fn is_alone(nodes: &[MaskNode]) -> bool
    ensures { result ≡ true → nodes.now ≡ MaskNode.Leaf 0 ∷ [] }
{
    if nodes.len() != 1 {
        return false;
    }
    match nodes[0] {
        MaskNode::Leaf(leaf) => leaf == 0,
        _ => false,
    }
}

/// Whether these are the one segment of a region that is its first solid alone.
fn is_one_alone(own: &[Woven], first: u32, body: &PrepRegion) -> bool
    ensures { result ≡ true → IsOneAlone own.now first body.now.tree }
{
    if own.len() != 1 || own[0].instance != first {
        return false;
    }
    is_alone(body.tree().nodes())
}

/// The first place behind which a region claims. A region of a single solid does so where its segment starts.
pub(crate) fn start_of(
    marks: &mut Marks,
    own: &[Woven],
    first: u32,
    body: &PrepRegion,
) -> Result<Option<Pos>, Memory>
    requires { All (IsOfBody first (length body.now.instances)) own.now }
    ensures { IfOk result (IsFirstClaim own.now body.now.tree first) }
{
    if is_one_alone(own, first, body) {
        return Ok(Some(own[0].seg.start));
    }
    first_start(marks, own, first, body)
}
