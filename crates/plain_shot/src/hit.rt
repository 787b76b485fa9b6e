ghost use Rattle.std.specs.Prelude.{◌≡◌, ◌&&◌, IfOk, filter};
ghost use Rattle.std.specs.List.{list_any};
ghost use Rattle.bool_weave.specs.Cuts.{cuts_of};
ghost use Rattle.overlap_list.specs.Hits.{has_end_at, changes_at, is_of, is_candidate, lower, lowest, hit_on, hit_of};
ghost use Rattle.overlap_list.specs.Partitions.{or_no_hit};

use crate::claim::PlainClaims;
use crate::cut::{cut_at, is_at};
use crate::segment::PlainSegment;
use memory_core::Memory;
use overlap_list::Hit;
use ranged_position::RangedPos;
use std::alloc::Global;

fn has_end_at(place: &RangedPos, segment: &PlainSegment) -> bool
    ensures { result ≡ has_end_at place.now segment.now }
{
    is_at(&segment.start(), place) || is_at(&segment.end(), place)
}

/// Whether the region's claim changes at the cut before interval `k`.
fn changes_at(k: usize, region: &PlainClaims) -> bool
    ensures { result ≡ changes_at k region.now }
{
    let before = k > 0 && region.claims_at(k - 1);
    before != region.claims_at(k)
}

fn is_of(region: &PlainClaims, segment: &PlainSegment) -> bool
    ensures { result ≡ is_of region.now segment.now }
{
    region.first() <= segment.instance()
        && (segment.instance() as u64) < region.first() as u64 + region.count() as u64
}

/// Whether the segment's instance is of a region whose claim changes there.
fn is_of_changing(regions: &[PlainClaims], k: usize, segment: &PlainSegment) -> bool
    ensures { result ≡ list_any (λ r. is_of r segment.now && changes_at k r) regions.now }
{
    regions
        .iter()
        .any(|r| is_of(r, segment) && changes_at(k, r))
}

/// Whether the segment ends at the place, and its instance is of a region whose claim changes there.
fn is_candidate(
    regions: &[PlainClaims],
    k: usize,
    place: &RangedPos,
    segment: &PlainSegment,
) -> bool
    ensures { result ≡ is_candidate regions.now k place.now segment.now }
{
    has_end_at(place, segment) && is_of_changing(regions, k, segment)
}

fn candidates(
    alloc: Global,
    segments: &[PlainSegment],
    regions: &[PlainClaims],
    k: usize,
    place: &RangedPos,
) -> Result<Vec<PlainSegment>, Memory>
    ensures { IfOk result (λ v. v.items ≡ filter (is_candidate regions.now k place.now) segments.now) }
{
    let mut kept = Vec::new(alloc);
    for segment in segments {
        if is_candidate(regions, k, place, segment) {
            kept.push(*segment)?;
        }
    }
    Ok(kept)
}

/// Of two segments that of the lower number.
fn lower(one: PlainSegment, other: Option<PlainSegment>) -> Option<PlainSegment>
    ensures { result ≡ lower one other }
{
    match other {
        None => Some(one),
        Some(other) => {
            if one.instance() <= other.instance() {
                Some(one)
            } else {
                Some(other)
            }
        }
    }
}

/// The segment of the lowest number.
fn lowest(segments: &[PlainSegment]) -> Option<PlainSegment>
    ensures { result ≡ lowest segments.now }
{
    let mut best = None;
    let mut left = segments.len();
    while left > 0 {
        left -= 1;
        best = lower(segments[left], best);
    }
    best
}

/// The hit on a segment at one of its ends.
fn hit_on(place: &RangedPos, segment: Option<PlainSegment>) -> Option<Hit>
    ensures { result ≡ hit_on place.now segment }
{
    let Some(one) = segment else {
        return None;
    };
    let face = if is_at(&one.start(), place) {
        one.start_face()
    } else {
        one.end_face()
    };
    Some(Hit {
        instance: one.instance(),
        face,
    })
}

fn or_no_hit(hit: Option<Hit>) -> Hit
    ensures { result ≡ or_no_hit hit }
{
    match hit {
        Some(hit) => hit,
        None => Hit {
            instance: 0,
            face: 0,
        },
    }
}

/// What is hit where interval `k` starts.
pub(crate) fn hit_of(
    alloc: Global,
    segments: &[PlainSegment],
    cuts: &[RangedPos],
    regions: &[PlainClaims],
    k: usize,
) -> Result<Hit, Memory>
    requires { cuts.now ≡ cuts_of segments.now }
    ensures { IfOk result (λ h. h ≡ or_no_hit (hit_of segments.now regions.now k)) }
{
    let place = cut_at(cuts, k);
    let all = candidates(alloc, segments, regions, k, &place)?;
    Ok(or_no_hit(hit_on(&place, lowest(&all))))
}
