ghost use Rattle.std.specs.Prelude.{◌≡◌, ◌<◌, ◌≤◌, ◌+◌, ◌^◌, ℕ, Bool, Some, None, cond, true, IfOk, All, length, vec_len, false, slice_index_or};
ghost use Rattle.std.specs.List.{position};
ghost use Rattle.overlap_list.specs.Winners.{claims_at, or_else, winner_of};
ghost use Rattle.overlap_list.specs.Partitions.{is_one_winner};
ghost use Rattle.overlap_list.specs.Steps.{winner_at, goes_on, IsBegin, IsEnd, is_claimed_by};

use crate::region::RegionClaims;
use bool_weave::ClaimRow;
use memory_core::Memory;
use std::alloc::Global;

/// Gives a region the intervals that it claims and that have no winner yet.
fn take_free(winners: &mut Vec<Option<u32>>, claims: &ClaimRow, place: u32)
    requires { vec_len winners.old ≡ length claims.now }
    ensures len { vec_len winners.new ≡ vec_len winners.old }
    ensures taken { (k : ℕ) → winner_at winners.new.items k ≡ or_else (winner_at winners.old.items k) (cond (slice_index_or claims.now k false) (Some place) None) }
{
    for k in claims.start()..claims.end() {
        if claims.at(k) && winners[k as usize].is_none() {
            winners[k as usize] = Some(place);
        }
    }
}

/// The same for a region with air, or for one without, where it is of that kind.
fn take_if(winners: &mut Vec<Option<u32>>, region: &RegionClaims, air: bool, place: u32)
    requires { vec_len winners.old ≡ length region.now.claims }
    ensures len { vec_len winners.new ≡ vec_len winners.old }
    ensures taken { (k : ℕ) → winner_at winners.new.items k ≡ or_else (winner_at winners.old.items k) (cond (is_claimed_by air k region.now) (Some place) None) }
{
    if region.air != air {
        return;
    }
    take_free(winners, &region.claims, place);
}

/// Gives the regions with air, or those without, the intervals that they claim and that have no winner yet, the first of
/// them first.
fn take_in_order(winners: &mut Vec<Option<u32>>, regions: &[RegionClaims], air: bool)
    requires rows { All (λ r. length r.claims ≡ vec_len winners.old) regions.now }
    requires few { length regions.now < 2 ^ 31 }
    ensures len { vec_len winners.new ≡ vec_len winners.old }
    ensures taken { (k : ℕ) → winner_at winners.new.items k ≡ or_else (winner_at winners.old.items k) (position (is_claimed_by air k) regions.now) }
{
    for i in 0..regions.len() {
        take_if(winners, &regions[i], air, i as u32);
    }
}

/// The winner of each interval.
pub(crate) fn winners_of(
    alloc: Global,
    count: usize,
    regions: &[RegionClaims],
) -> Result<Vec<Option<u32>>, Memory>
    requires rows { All (λ r. length r.claims ≡ count) regions.now }
    requires few { length regions.now < 2 ^ 31 }
    ensures len { IfOk result (λ winners. vec_len winners ≡ count) }
    ensures winners { IfOk result (λ winners. (k : ℕ) → winner_at winners.items k ≡ winner_of regions.now k) }
{
    let mut winners = Vec::new(alloc);
    winners.resize(count, None)?;
    take_in_order(&mut winners, regions, false);
    take_in_order(&mut winners, regions, true);
    Ok(winners)
}

fn is_one_winner(one: Option<u32>, two: Option<u32>) -> bool
    ensures { result ≡ is_one_winner one two }
{
    match (one, two) {
        (Some(one), Some(two)) => one == two,
        _ => false,
    }
}

/// The winner where a run of intervals with one winner begins.
pub(crate) fn winner_from(winners: &[Option<u32>], from: usize) -> Option<u32>
    requires { from < length winners.now }
    ensures { IsBegin winners.now from result }
{
    if from > 0 && is_one_winner(winners[from], winners[from - 1]) {
        return None;
    }
    winners[from]
}

/// Where the run ends that begins with an interval.
pub(crate) fn run_end(winners: &[Option<u32>], from: usize) -> usize
    requires within { from < length winners.now }
    requires won { is_one_winner (winner_at winners.now from) (winner_at winners.now from) ≡ true }
    ensures end { IsEnd (goes_on winners.now from) from result }
    ensures within { result ≤ length winners.now }
{
    let mut to = from + 1;
    while to < winners.len() && is_one_winner(winners[from], winners[to]) {
        to += 1;
    }
    to
}
