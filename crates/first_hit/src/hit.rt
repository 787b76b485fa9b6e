ghost use Rattle.std.specs.Prelude.{◌≡◌, ◌<◌, Some, None, All, IfOk, length, cond, true};
ghost use Rattle.std.specs.List.{find};
ghost use Rattle.std.specs.Option.{ForSome};
ghost use Rattle.surd_order.specs.Range.{IsInRange};
ghost use Rattle.bool_weave.specs.Cuts.{IsSegment};
ghost use Rattle.overlap_list.specs.Hits.{is_at, has_end_at, hit_on};
ghost use Rattle.overlap_list.specs.Partitions.{or_no_hit};
ghost use Rattle.first_hit.specs.FirstSteps.{IsOfBody, IsPartIn, TurnsInFront, changes_beside, own_hit, lower_hit, part_hit, lowest_hit};

use crate::beside::{Flank, Marks};
use crate::front::{Front, Part};
use bool_weave::Woven;
use memory_core::Memory;
use overlap_list::Hit;
use shot_core::{PrepRegion, Scene};
use surd_order::Pos;

fn is_at(x: &Pos, y: &Pos) -> bool
    requires x { IsInRange x.now }
    requires y { IsInRange y.now }
    ensures { result ≡ is_at x.now y.now }
{
    x.cmp(y).is_eq()
}

fn has_end_at(place: &Pos, woven: &Woven) -> bool
    requires place { IsInRange place.now }
    requires segment { IsSegment woven.now.seg }
    ensures { result ≡ has_end_at place.now woven.now }
{
    is_at(&woven.seg.start, place) || is_at(&woven.seg.end, place)
}

/// The first of these segments that has an end at a place.
fn first_end(own: &[Woven], place: &Pos) -> Option<Woven>
    requires own { All (λ w. IsSegment w.seg) own.now }
    requires place { IsInRange place.now }
    ensures value { result ≡ find (has_end_at place.now) own.now }
{
    for one in own {
        if has_end_at(place, one) {
            return Some(*one);
        }
    }
    None
}

/// Whether a region's claim changes at a place, from the segments of its own instances.
fn changes(
    marks: &mut Marks,
    own: &[Woven],
    first: u32,
    body: &PrepRegion,
    place: &Pos,
) -> Result<bool, Memory>
    requires own { All (IsOfBody first (length body.now.instances)) own.now }
    requires place { IsInRange place.now }
    ensures { IfOk result (λ b. b ≡ changes_beside own.now body.now.tree first place.now) }
{
    let before = marks.claims(own, first, body, place, Flank::Before)?;
    let behind = marks.claims(own, first, body, place, Flank::Behind)?;
    Ok(before != behind)
}

fn is_lower(one: &Woven, best: Option<Woven>) -> bool
    ensures { lower_hit best (Some one.now) ≡ cond result (Some one.now) best }
{
    match best {
        Some(best) => one.instance < best.instance,
        None => true,
    }
}

/// The lower-numbered one of the best so far and of a region's first segment that ends at a place, where the region's claim
/// changes there, as it may be known to do.
fn lower_hit(
    marks: &mut Marks,
    best: Option<Woven>,
    own: &[Woven],
    first: u32,
    body: &PrepRegion,
    place: &Pos,
    is_known: bool,
) -> Result<Option<Woven>, Memory>
    requires own { All (IsOfBody first (length body.now.instances)) own.now }
    requires place { IsInRange place.now }
    requires known { is_known ≡ true → changes_beside own.now body.now.tree first place.now ≡ true }
    ensures { IfOk result (λ r. r ≡ lower_hit best (own_hit own.now body.now.tree first place.now)) }
{
    let Some(one) = first_end(own, place) else {
        return Ok(best);
    };
    if !is_lower(&one, best) {
        return Ok(best);
    }
    if is_known {
        return Ok(Some(one));
    }
    if changes(marks, own, first, body, place)? {
        return Ok(Some(one));
    }
    Ok(best)
}

/// The same for the segments of a part. That the claim of the region in front changes where it begins needs no look.
fn part_hit(
    marks: &mut Marks,
    best: Option<Woven>,
    scene: &Scene,
    segments: &[Woven],
    part: &Part,
    front: &Front,
) -> Result<Option<Woven>, Memory>
    requires part { IsPartIn scene.now segments.now part.now }
    requires place { IsInRange front.now.start }
    requires turns { TurnsInFront scene.now segments.now front.now part.now }
    ensures { IfOk result (λ r. r ≡ lower_hit best (part_hit scene.now segments.now front.now.start part.now)) }
{
    let first = scene.first(part.region);
    let body = scene.regions()[part.region as usize].body();
    lower_hit(
        marks,
        best,
        &segments[part.from..part.to],
        first,
        body,
        &front.start,
        part.region == front.region,
    )
}

/// The lowest-numbered segment that ends where the front is, among those of regions whose claims change there.
fn lowest_hit(
    marks: &mut Marks,
    scene: &Scene,
    segments: &[Woven],
    parts: &[Part],
    front: &Front,
) -> Result<Option<Woven>, Memory>
    requires parts { All (IsPartIn scene.now segments.now) parts.now }
    requires place { IsInRange front.now.start }
    requires turns { All (TurnsInFront scene.now segments.now front.now) parts.now }
    ensures { IfOk result (λ r. r ≡ lowest_hit scene.now segments.now front.now.start None parts.now) }
{
    let mut best = None;
    for part in parts {
        best = part_hit(marks, best, scene, segments, part, front)?;
    }
    Ok(best)
}

fn hit_on(place: &Pos, woven: &Woven) -> Hit
    requires place { IsInRange place.now }
    requires segment { IsSegment woven.now.seg }
    ensures { Some result ≡ hit_on place.now (Some woven.now) }
{
    let face = if is_at(&woven.seg.start, place) {
        woven.seg.start_face
    } else {
        woven.seg.end_face
    };
    Hit {
        instance: woven.instance,
        face,
    }
}

/// What is hit where the front is: of all that end there the lowest-numbered instance of a region whose claim changes.
pub(crate) fn hit_at(
    marks: &mut Marks,
    scene: &Scene,
    segments: &[Woven],
    parts: &[Part],
    front: &Front,
) -> Result<Hit, Memory>
    requires parts { All (IsPartIn scene.now segments.now) parts.now }
    requires sound { All (λ w. IsSegment w.seg) segments.now }
    requires place { IsInRange front.now.start }
    requires turns { All (TurnsInFront scene.now segments.now front.now) parts.now }
    ensures { IfOk result (λ h. h ≡ or_no_hit (hit_on front.now.start (lowest_hit scene.now segments.now front.now.start None parts.now))) }
{
    match lowest_hit(marks, scene, segments, parts, front)? {
        Some(one) => Ok(hit_on(&front.start, &one)),
        None => Ok(Hit {
            instance: 0,
            face: 0,
        }),
    }
}
