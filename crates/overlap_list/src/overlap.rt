ghost use Rattle.std.specs.Prelude.{◌≡◌, ◌<◌, ◌≤◌, ◌+◌, ◌-◌, ◌++◌, ◌∷◌, [], ◌^◌, true, IfOk, IfErr, All, length};
ghost use Rattle.std.specs.List.{filter_map};
ghost use Rattle.bool_weave.specs.Cuts.{cuts_of};
ghost use Rattle.bool_weave.specs.Claims.{intervals_of};
ghost use Rattle.overlap_list.specs.Overlaps.{pairs_from, first_overlap, overlaps_of, IsTooMany, IsCheckFault};
ghost use Rattle.overlap_list.specs.declared.overlap.TheConstants.{MOST_PAIRS};
ghost use Rattle.overlap_list.specs.Steps.{do_both, IsFirst, IsEnd, IsFirstRun, do_overlap};

use crate::region::RegionClaims;
use bool_weave::{ClaimRow, Weave};
use std::alloc::Global;
use surd_order::Pos;

/// The greatest number of pairs that are listed.
pub const MOST_PAIRS: usize = 2_097_152;

/// The first run of intervals that two regions without air both claim.
#[derive(Clone, Copy, Debug, PartialEq, Eq)]
pub struct OverlapRun {
    /// The lower of their places, counted from 0.
    pub one: u32,
    /// The higher of them.
    pub two: u32,
    /// Where the run starts.
    pub start: Pos,
    /// Where it ends.
    pub end: Pos,
}

/// Why overlaps are not listed.
#[derive(Clone, Copy, Debug, PartialEq, Eq)]
pub enum CheckFault {
    /// More than `MOST_PAIRS` pairs overlap.
    TooMany,
    /// There was no memory.
    Memory,
}

/// A run of intervals: from one number up to, not including, another.
#[derive(Clone, Copy, Debug)]
struct Stretch {
    from: u32,
    to: u32,
}

/// The first interval that both rows claim.
fn first_both(one: &ClaimRow, two: &ClaimRow) -> Option<u32>
    requires { length one.now ≡ length two.now }
    ensures { IsFirst (do_both one.now two.now) (length one.now) result }
{
    for k in one.start().max(two.start())..one.end().min(two.end()) {
        if one.at(k) && two.at(k) {
            return Some(k);
        }
    }
    None
}

/// Where the run ends that begins with an interval that both rows claim.
fn both_end(one: &ClaimRow, two: &ClaimRow, from: u32) -> u32
    requires len { length one.now ≡ length two.now }
    requires within { from < length one.now }
    requires both { do_both one.now two.now from ≡ true }
    ensures end { IsEnd (do_both one.now two.now) from result }
    ensures within { result ≤ length one.now }
{
    let len = one.len();
    let mut to = from + 1;
    while to < len && one.at(to) && two.at(to) {
        to += 1;
    }
    to
}

/// The first run of intervals that two regions, neither with air, both claim.
fn first_stretch(one: &RegionClaims, two: &RegionClaims) -> Option<Stretch>
    requires { length one.now.claims ≡ length two.now.claims }
    ensures { IsFirstRun (do_overlap one.now two.now) (length one.now.claims) result }
{
    if one.air || two.air {
        return None;
    }
    let from = first_both(&one.claims, &two.claims)?;
    let to = both_end(&one.claims, &two.claims, from);
    Some(Stretch { from, to })
}

/// Adds the first run of a pair of regions, where they overlap.
fn add_overlap(
    runs: &mut Vec<OverlapRun>,
    weave: &Weave,
    regions: &[RegionClaims],
    one: u32,
    two: u32,
) -> Result<(), CheckFault>
    requires one { one < length regions.now }
    requires two { two < length regions.now }
    requires rows { All (λ r. length r.claims ≡ length (intervals_of weave.now)) regions.now }
    ensures added { IfOk result (λ _. runs.new.items ≡ runs.old.items ++ filter_map (first_overlap weave.now regions.now) (record { one = one; two = two } ∷ [])) }
    ensures many { IfErr result (IsTooMany (length runs.old.items + length (filter_map (first_overlap weave.now regions.now) (record { one = one; two = two } ∷ [])))) }
    ensures most { IfOk result (λ _. length runs.old.items ≤ MOST_PAIRS → length runs.new.items ≤ MOST_PAIRS) }
{
    let Some(stretch) = first_stretch(&regions[one as usize], &regions[two as usize]) else {
        return Ok(());
    };
    if runs.len() >= MOST_PAIRS {
        return Err(CheckFault::TooMany);
    }
    let cuts = weave.cuts();
    let run = OverlapRun {
        one,
        two,
        start: cuts[stretch.from as usize],
        end: cuts[stretch.to as usize],
    };
    if runs.push(run).is_err() {
        return Err(CheckFault::Memory);
    }
    Ok(())
}

/// Adds the first run of each pair of a region and a later one that overlap.
fn add_overlaps(
    runs: &mut Vec<OverlapRun>,
    weave: &Weave,
    regions: &[RegionClaims],
    one: u32,
) -> Result<(), CheckFault>
    requires few { length regions.now < 2 ^ 31 }
    requires one { one < length regions.now }
    requires rows { All (λ r. length r.claims ≡ length (intervals_of weave.now)) regions.now }
    ensures added { IfOk result (λ _. runs.new.items ≡ runs.old.items ++ filter_map (first_overlap weave.now regions.now) (pairs_from (length regions.now - 1) one)) }
    ensures many { IfErr result (IsTooMany (length runs.old.items + length (filter_map (first_overlap weave.now regions.now) (pairs_from (length regions.now - 1) one)))) }
    ensures most { IfOk result (λ _. length runs.old.items ≤ MOST_PAIRS → length runs.new.items ≤ MOST_PAIRS) }
{
    for two in one + 1..regions.len() as u32 {
        if let Err(fault) = add_overlap(runs, weave, regions, one, two) {
            return Err(fault);
        }
    }
    Ok(())
}

/// The first run of each pair of regions without air that overlap, by the lower place and then the higher one. `TooMany`
/// comes where over `MOST_PAIRS` pairs overlap.
pub fn overlaps(
    alloc: Global,
    weave: &Weave,
    regions: &[RegionClaims],
) -> Result<Vec<OverlapRun>, CheckFault>
    requires few { length regions.now < 2 ^ 31 }
    requires rows { All (λ r. length r.claims ≡ length (intervals_of weave.now)) regions.now }
    ensures runs { IfOk result (λ v. v.items ≡ overlaps_of weave.now regions.now) }
    ensures most { IfOk result (λ v. length v.items ≤ MOST_PAIRS) }
    ensures fault { IfErr result (IsCheckFault weave.now regions.now) }
{
    let mut runs = Vec::new(alloc);
    for one in 0..regions.len().saturating_sub(1) as u32 {
        if let Err(fault) = add_overlaps(&mut runs, weave, regions, one) {
            return Err(fault);
        }
    }
    Ok(runs)
}

/// The limit is this number. This law is what refuses another constant.
pub fn limit_laws()
    ensures pairs { MOST_PAIRS ≡ 2097152 }
{}
