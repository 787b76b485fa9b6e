ghost use Rattle.std.specs.Prelude.{◌≡◌, true, pos, IfOk, length, map};
ghost use Rattle.std.specs.Option.{ForSome};
ghost use Rattle.lattice_core.specs.declared.limit.TheConstants.{WORLD};
ghost use Rattle.lattice_core.specs.Limits.{IsWithin};
ghost use Rattle.surd_order.specs.Range.{IsInRange};
ghost use Rattle.surd_order.specs.Order.{Precedes};
ghost use Rattle.surd_order.specs.declared.position.Pos.TheVariants.{Frac};
ghost use Rattle.shot_core.specs.FirstShots.{IsOrderOf};
ghost use Rattle.first_hit.specs.NearFirst.{AreNears, IsNearestFirst};
ghost use Rattle.shot_core.specs.RegionBoxes.{ahead_rising, ahead_falling, near_side};
ghost use Rattle.first_hit.specs.FirstSteps.{side_of, IsBeforeSide, BeginsBehind, IsPassed};

use crate::front::Front;
use lattice_core::{Box3, Dir, FAR, Ray, Side, V3, box_meets_ray};
use memory_core::Memory;
use shot_core::Scene;
use std::alloc::Global;
use surd_order::Pos;

fn ahead_rising(side: Side, origin: i64) -> Option<i128>
    ensures { side_of result ≡ ahead_rising side origin }
{
    match side {
        Side::Open => None,
        Side::At(at) => Some(at as i128 - origin as i128),
    }
}

fn ahead_falling(side: Side, origin: i64) -> Option<i128>
    ensures { side_of result ≡ ahead_falling side origin }
{
    match side {
        Side::Open => None,
        Side::At(at) => Some(origin as i128 - at as i128),
    }
}

/// How far from a ray's origin a box begins, in the ray's direction, where it has a side there.
fn near_side(b: &Box3, ray: &Ray) -> Option<i128>
    ensures { side_of result ≡ near_side b.now ray.now }
{
    let Box3::Span { x, y, z } = *b else {
        return None;
    };
    match ray.dir {
        Dir::PlusX => ahead_rising(x.low, ray.origin.x),
        Dir::MinusX => ahead_falling(x.high, ray.origin.x),
        Dir::PlusY => ahead_rising(y.low, ray.origin.y),
        Dir::MinusY => ahead_falling(y.high, ray.origin.y),
        Dir::PlusZ => ahead_rising(z.low, ray.origin.z),
        Dir::MinusZ => ahead_falling(z.high, ray.origin.z),
    }
}

/// Whether a place lies before a side that a ray meets.
fn is_before_side(place: &Pos, side: Option<i128>) -> bool
    requires { IsInRange place.now }
    ensures { result ≡ true → IsBeforeSide (side_of side) place.now }
{
    let Some(near) = side else {
        return false;
    };
    if near < 0 || near > FAR as i128 {
        return false;
    }
    place.cmp(&Pos::Frac { p: near, q: 1 }).is_lt()
}

/// Whether a place lies before a whole number, as far as that is told without a root: `a - √k` lies before all that is over `a`.
/// Most boxes that are passed over are so by this alone.
fn is_well_before(place: &Pos, near: i128) -> bool
    requires { IsInRange place.now }
    ensures { result ≡ true → Precedes place.now (Frac near (pos 1)) }
{
    match *place {
        Pos::Frac { p, q } => {
            if q != 1 {
                return false;
            }
            p < near
        }
        Pos::Surd { a, plus, k: _k } => {
            if plus {
                return false;
            }
            (a as i128) < near
        }
    }
}

/// Whether a box begins behind the best place so far, as far as that is told without a root.
fn begins_well_behind(b: &Box3, ray: &Ray, best: &Option<Front>) -> bool
    requires { ForSome best.now (λ f. IsInRange f.start) }
    ensures { result ≡ true → BeginsBehind b.now ray.now best.now }
{
    let Some(front) = best else {
        return false;
    };
    let Some(near) = near_side(b, ray) else {
        return false;
    };
    is_well_before(&front.start, near)
}

/// Whether a ray can pass over what a box holds: it misses the box, or enters it only behind the best place so far.
pub(crate) fn is_passed(b: &Box3, ray: &Ray, best: &Option<Front>) -> bool
    requires best { ForSome best.now (λ f. IsInRange f.start) }
    requires origin { IsWithin WORLD ray.now.origin }
    ensures { result ≡ true → IsPassed b.now ray.now best.now }
{
    if begins_well_behind(b, ray, best) {
        return true;
    }
    if !box_meets_ray(b, ray) {
        return true;
    }
    match best {
        Some(front) => is_before_side(&front.start, near_side(b, ray)),
        None => false,
    }
}

/// Where a region's box begins along a direction.
#[derive(Clone, Copy, PartialEq, Eq, PartialOrd, Ord)]
struct Near {
    side: Option<i128>,
    region: u32,
}

/// Where each region's box begins along a direction.
fn nears_of(alloc: Global, scene: &Scene, dir: Dir) -> Result<Vec<Near>, Memory>
    ensures { IfOk result (λ v. AreNears dir scene.now (length scene.now) v.items) }
{
    let origin = V3 { x: 0, y: 0, z: 0 };
    let regions = scene.regions();
    let mut nears = Vec::new(alloc);
    for i in 0..regions.len() {
        let bounds = regions[i].body().bounds();
        nears.push(Near {
            side: near_side(&bounds, &Ray { origin, dir }),
            region: i as u32,
        })?;
    }
    Ok(nears)
}

fn regions_of(alloc: Global, nears: &[Near]) -> Result<Vec<u32>, Memory>
    ensures { IfOk result (λ v. v.items ≡ map (λ n. n.region) nears.now) }
{
    let mut numbers = Vec::new(alloc);
    for near in nears {
        numbers.push(near.region)?;
    }
    Ok(numbers)
}

/// The numbers of a scene's regions in the order in which their boxes begin along a direction, the nearest first. Those whose
/// boxes have no side there, or no points, come before all others, and of boxes that begin at one place the lower number first.
pub fn near_order(alloc: Global, scene: &Scene, dir: Dir) -> Result<Vec<u32>, Memory>
    ensures order { IfOk result (λ v. IsOrderOf (length scene.now) v.items) }
    ensures nearest { IfOk result (λ v. IsNearestFirst dir scene.now v.items) }
{
    let mut nears = nears_of(alloc, scene, dir)?;
    nears.sort_unstable();
    regions_of(alloc, &nears)
}
