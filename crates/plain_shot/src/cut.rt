ghost use Rattle.std.specs.Prelude.{◌≡◌, ◌<◌, ◌≤◌, ℕ, IfOk, length, slice_index_or, true, false, nat_lt, ◌&&◌};
ghost use Rattle.std.specs.Ordering.{is_gt};
ghost use Rattle.surd_order.specs.declared.position.Pos.{Pos};
ghost use Rattle.surd_order.specs.PlaceOrder.{place_cmp};
ghost use Rattle.bool_weave.specs.Cuts.{ray_start, ray_end, places_of, put_in, in_order, cuts_of};
ghost use Rattle.overlap_list.specs.Hits.{is_at};

use crate::segment::PlainSegment;
use lattice_core::FAR;
use memory_core::Memory;
use ranged_position::RangedPos;
use std::alloc::Global;
use surd_order::Pos;

/// Where a ray begins.
fn ray_start() -> RangedPos
    ensures { result ≡ ray_start }
{
    RangedPos::new(Pos::Frac { p: 0, q: 1 })
}

/// Where it ends.
fn ray_end() -> RangedPos
    ensures { result ≡ ray_end }
{
    RangedPos::new(Pos::Frac {
        p: FAR as i128,
        q: 1,
    })
}

/// The places at which a ray is cut, as they come.
fn places_of(alloc: Global, segments: &[PlainSegment]) -> Result<Vec<RangedPos>, Memory>
    ensures { IfOk result (λ v. v.items ≡ places_of segments.now) }
{
    let mut places = Vec::new(alloc);
    places.push(ray_start())?;
    places.push(ray_end())?;
    for segment in segments {
        places.push(segment.start())?;
        places.push(segment.end())?;
    }
    Ok(places)
}

/// How many places come before the first one that a place isn't after.
fn count_before(places: &[RangedPos], place: &RangedPos) -> usize
    ensures within { result ≤ length places.now }
    ensures before { (k : ℕ) (d : Pos) → k < result → is_gt (place_cmp place.now (slice_index_or places.now k d)) ≡ true }
    ensures ended { (d : Pos) → result < length places.now → is_gt (place_cmp place.now (slice_index_or places.now result d)) ≡ false }
{
    let mut count = 0;
    while count < places.len() && place.cmp(&places[count]).is_gt() {
        count += 1;
    }
    count
}

/// Whether two places are one.
pub(crate) fn is_at(x: &RangedPos, y: &RangedPos) -> bool
    ensures { result ≡ is_at x.now y.now }
{
    x.cmp(y).is_eq()
}

/// Whether the place of that number is the place.
fn is_there(places: &[RangedPos], number: usize, place: &RangedPos) -> bool
    ensures { result ≡ (nat_lt number (length places.now) && is_at place.now (slice_index_or places.now number ray_start)) }
{
    number < places.len() && is_at(place, &places[number])
}

/// Puts a place among places that are in order, where it is not there yet.
fn put_in(places: &mut Vec<RangedPos>, place: RangedPos) -> Result<(), Memory>
    ensures { IfOk result (λ _. places.new.items ≡ put_in place places.old.items) }
{
    let count = count_before(places, &place);
    if is_there(places, count, &place) {
        return Ok(());
    }
    places.insert(count, place)?;
    Ok(())
}

/// The places in their order, each once: an insertion sort.
fn in_order(alloc: Global, places: &[RangedPos]) -> Result<Vec<RangedPos>, Memory>
    ensures { IfOk result (λ v. v.items ≡ in_order places.now) }
{
    let mut sorted = Vec::new(alloc);
    let mut left = places.len();
    while left > 0 {
        left -= 1;
        put_in(&mut sorted, places[left])?;
    }
    Ok(sorted)
}

/// The cuts that segments make.
pub(crate) fn cuts_of(alloc: Global, segments: &[PlainSegment]) -> Result<Vec<RangedPos>, Memory>
    ensures { IfOk result (λ v. v.items ≡ cuts_of segments.now) }
{
    let places = places_of(alloc, segments)?;
    in_order(alloc, &places)
}

/// The cut of that number.
pub(crate) fn cut_at(cuts: &[RangedPos], number: usize) -> RangedPos
    ensures { result ≡ slice_index_or cuts.now number ray_start }
{
    match cuts.get(number) {
        Some(cut) => *cut,
        None => ray_start(),
    }
}
