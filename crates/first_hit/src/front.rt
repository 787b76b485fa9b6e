ghost use Rattle.std.specs.Prelude.{◌≡◌, ◌<◌, ◌++◌, All, OnOk, IfOk, length};
ghost use Rattle.std.specs.Option.{ForSome};
ghost use Rattle.lattice_core.specs.declared.limit.TheConstants.{WORLD};
ghost use Rattle.lattice_core.specs.Limits.{IsWithin};
ghost use Rattle.surd_order.specs.Range.{IsInRange};
ghost use Rattle.bool_weave.specs.Cuts.{IsSegment};
ghost use Rattle.shot_core.specs.Regions.{HaveInstances, HavePlacedSolids, has_air};
ghost use Rattle.first_hit.specs.FirstSteps.{better_of, own_no, IsTaken, IsFront, IsPartOf, IsMet, IsThrough};

use crate::beside::Marks;
use crate::near::is_passed;
use crate::own::{add_segments, start_of};
use bool_weave::Woven;
use lattice_core::Ray;
use memory_core::Memory;
use shot_core::{PrepRegion, Scene};
use std::cmp::Ordering;
use surd_order::Pos;

/// Where a region without air claims first.
#[derive(Clone, Copy, Debug)]
pub(crate) struct Front {
    pub(crate) start: Pos,
    pub(crate) region: u32,
}

/// The segments of one region among all that were gathered: from one number up to, not including, another.
#[derive(Clone, Copy, Debug)]
pub(crate) struct Part {
    pub(crate) region: u32,
    pub(crate) from: usize,
    pub(crate) to: usize,
}

/// The earlier one, and of two at one place the one of the lower number.
fn better(best: Option<Front>, start: Option<Pos>, region: u32) -> Option<Front>
    requires best { ForSome best (λ b. IsInRange b.start) }
    requires start { ForSome start IsInRange }
    ensures { result ≡ better_of best start region }
{
    let Some(start) = start else {
        return best;
    };
    let Some(so_far) = best else {
        return Some(Front { start, region });
    };
    match start.cmp(&so_far.start) {
        Ordering::Less => Some(Front { start, region }),
        Ordering::Equal => {
            if region < so_far.region {
                Some(Front { start, region })
            } else {
                best
            }
        }
        Ordering::Greater => best,
    }
}

fn has_air(body: &PrepRegion) -> bool
    ensures { result ≡ has_air body.now }
{
    body.air() != 0
}

/// The best with one more region, whose segments are added to those of the others.
fn take_region(
    segments: &mut Vec<Woven>,
    marks: &mut Marks,
    best: &mut Option<Front>,
    scene: &Scene,
    ray: &Ray,
    number: u32,
) -> Result<(), Memory>
    requires sound { All (λ w. IsSegment w.seg) segments.old.items }
    requires best { ForSome best.old (λ b. IsInRange b.start) }
    requires number { number < length scene.now }
    requires origin { IsWithin WORLD ray.now.origin }
    ensures taken { OnOk result (IsTaken scene.now ray.now number best.old best.new) }
    ensures segments { OnOk result (segments.new.items ≡ segments.old.items ++ own_no scene.now ray.now number) }
    ensures sound { OnOk result (All (λ w. IsSegment w.seg) segments.new.items) }
{
    let from = segments.len();
    let first = scene.first(number);
    let body = scene.regions()[number as usize].body();
    add_segments(segments, first, body.solids(), ray)?;
    if has_air(body) {
        return Ok(());
    }
    let start = start_of(marks, &segments[from..], first, body)?;
    *best = better(*best, start, number);
    Ok(())
}

/// The same, where the region is not passed over; its segments are then the next part.
fn meet_region(
    segments: &mut Vec<Woven>,
    parts: &mut Vec<Part>,
    marks: &mut Marks,
    best: &mut Option<Front>,
    scene: &Scene,
    ray: &Ray,
    number: u32,
) -> Result<(), Memory>
    requires sound { All (λ w. IsSegment w.seg) segments.old.items }
    requires parts { All (IsPartOf scene.now ray.now segments.old.items) parts.old.items }
    requires best { ForSome best.old (λ b. IsInRange b.start) }
    requires number { number < length scene.now }
    requires origin { IsWithin WORLD ray.now.origin }
    ensures met { OnOk result (IsMet scene.now ray.now number best.old parts.old.items best.new parts.new.items) }
    ensures sound { OnOk result (All (λ w. IsSegment w.seg) segments.new.items) }
    ensures parts { OnOk result (All (IsPartOf scene.now ray.now segments.new.items) parts.new.items) }
{
    let bounds = scene.regions()[number as usize].body().lent_bounds();
    if is_passed(bounds, ray, best) {
        return Ok(());
    }
    let from = segments.len();
    take_region(segments, marks, best, scene, ray, number)?;
    parts.push(Part {
        region: number,
        from,
        to: segments.len(),
    })?;
    Ok(())
}

/// Where the regions of these numbers, in whatever order, claim first without air, with the segments of those that are not
/// passed over.
pub(crate) fn front_of(
    segments: &mut Vec<Woven>,
    parts: &mut Vec<Part>,
    marks: &mut Marks,
    scene: &Scene,
    ray: &Ray,
    order: &[u32],
) -> Result<Option<Front>, Memory>
    requires order { All (λ n. n < length scene.now) order.now }
    requires leaves { HaveInstances scene.now }
    requires placed { HavePlacedSolids scene.now }
    requires origin { IsWithin WORLD ray.now.origin }
    ensures front { IfOk result (IsFront scene.now ray.now order.now (length order.now)) }
    ensures through { IfOk result (λ r. IsThrough scene.now ray.now order.now (length order.now) r parts.new.items) }
    ensures sound { IfOk result (λ _. All (λ w. IsSegment w.seg) segments.new.items) }
    ensures parts { IfOk result (λ _. All (IsPartOf scene.now ray.now segments.new.items) parts.new.items) }
{
    segments.clear();
    parts.clear();
    let mut best = None;
    for i in 0..order.len() {
        meet_region(segments, parts, marks, &mut best, scene, ray, order[i])?;
    }
    Ok(best)
}
