ghost use Rattle.std.specs.Prelude.{◌≡◌, ◌<◌, ◌+◌, ◌&&◌, ℕ, Some, All, length, filter};
ghost use Rattle.std.specs.List.{list_any};
ghost use Rattle.surd_order.specs.Range.{IsInRange};
ghost use Rattle.bool_weave.specs.Cuts.{IsSegment, IsWoven};
ghost use Rattle.overlap_list.specs.Hits.{is_at, has_end_at, changes_at, is_of, is_candidate, lowest, hit_on};
ghost use Rattle.overlap_list.specs.Partitions.{or_no_hit};

use crate::region::RegionClaims;
use bool_weave::Woven;
use surd_order::Pos;

/// What a ray meets where a partition starts.
#[derive(Clone, Copy, Debug, PartialEq, Eq)]
pub struct Hit {
    /// The instance's number.
    pub instance: u32,
    /// The face of the instance's segment at that end, or 0 where it has none.
    pub face: u8,
}

fn is_at(x: &Pos, y: &Pos) -> bool
    requires x { IsInRange x.now }
    requires y { IsInRange y.now }
    ensures { result ≡ is_at x.now y.now }
{
    x.cmp(y).is_eq()
}

fn has_end_at(place: &Pos, woven: &Woven) -> bool
    requires place { IsInRange place.now }
    requires segment { IsSegment woven.now.seg }
    ensures { result ≡ has_end_at place.now woven.now }
{
    is_at(&woven.seg.start, place) || is_at(&woven.seg.end, place)
}

/// Whether the region's claim changes at the start of an interval.
fn changes_at(interval: u32, region: &RegionClaims) -> bool
    requires { interval < length region.now.claims }
    ensures { result ≡ changes_at interval region.now }
{
    let before = interval > 0 && region.claims.at(interval - 1);
    before != region.claims.at(interval)
}

fn is_of(region: &RegionClaims, woven: &Woven) -> bool
    ensures { result ≡ is_of region.now woven.now }
{
    region.first <= woven.instance
        && (woven.instance as u64) < region.first as u64 + region.count as u64
}

fn is_of_changing(regions: &[RegionClaims], interval: u32, woven: &Woven) -> bool
    requires { All (λ r. interval < length r.claims) regions.now }
    ensures { result ≡ list_any (λ r. is_of r woven.now && changes_at interval r) regions.now }
{
    for region in regions {
        if is_of(region, woven) && changes_at(interval, region) {
            return true;
        }
    }
    false
}

fn is_candidate(regions: &[RegionClaims], interval: u32, place: &Pos, woven: &Woven) -> bool
    requires rows { All (λ r. interval < length r.claims) regions.now }
    requires place { IsInRange place.now }
    requires segment { IsSegment woven.now.seg }
    ensures { result ≡ is_candidate regions.now interval place.now woven.now }
{
    has_end_at(place, woven) && is_of_changing(regions, interval, woven)
}

fn hit_on(place: &Pos, woven: &Woven) -> Hit
    requires place { IsInRange place.now }
    requires segment { IsSegment woven.now.seg }
    ensures { Some result ≡ hit_on place.now (Some woven.now) }
{
    let face = if is_at(&woven.seg.start, place) {
        woven.seg.start_face
    } else {
        woven.seg.end_face
    };
    Hit {
        instance: woven.instance,
        face,
    }
}

/// The hit at the start of an interval. What was woven rises, so the first candidate is the lowest.
pub(crate) fn hit_at(woven: &[Woven], regions: &[RegionClaims], interval: u32, place: &Pos) -> Hit
    requires woven { IsWoven woven.now }
    requires rows { All (λ r. interval < length r.claims) regions.now }
    requires place { IsInRange place.now }
    ensures { result ≡ or_no_hit (hit_on place.now (lowest (filter (is_candidate regions.now interval place.now) woven.now))) }
{
    for one in woven {
        if is_candidate(regions, interval, place, one) {
            return hit_on(place, one);
        }
    }
    Hit {
        instance: 0,
        face: 0,
    }
}
