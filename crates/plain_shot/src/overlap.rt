use crate::claim::PlainClaims;
use crate::cut::cut_at;
use crate::laid::{Laid, laid_of};
use crate::run::{PlainRun, runs_below};
use lattice_core::Ray;
use memory_core::Memory;
use overlap_list::OverlapRun;
use ranged_position::RangedPos;
use shot_core::Scene;
use std::alloc::Global;
use std::marker::Model;

/// The places of two regions, the lower one first.
#[derive(Clone, Copy, Debug)]
struct PlainPair {
    one: u32,
    two: u32,
}

impl Model for PlainPair {
    ghost use Rattle.overlap_list.specs.Overlaps.{RegionPair};
    ghost use Rattle.plain_shot.specs.Kept.{pair_code};

    ghost Value = { RegionPair };

    ghost coded = { pair_code };

    ghost view = { λ s. record { one = s.one; two = s.two } };

    ghost inverse = { λ pair. record { one = pair.one; two = pair.two } };
}

ghost use Rattle.std.specs.Prelude.{◌≡◌, ◌<◌, ◌-◌, ◌&&◌, ◌++◌, ◌^◌, IfOk, length, slice_get};
ghost use Rattle.std.specs.List.{find, filter_map, list_all, range_with_len};
ghost use Rattle.lattice_core.specs.declared.limit.TheConstants.{WORLD};
ghost use Rattle.lattice_core.specs.Limits.{IsWithin};
ghost use Rattle.bool_weave.specs.Cuts.{cuts_of};
ghost use Rattle.bool_weave.specs.Claims.{intervals_of};
ghost use Rattle.overlap_list.specs.Runs.{has_before, is_maximal, runs_below};
ghost use Rattle.overlap_list.specs.Overlaps.{pairs_from, pairs_up_to, is_solid_at, do_overlap_at, overlap_on, first_overlap};
ghost use Rattle.shot_core.specs.Shots.{overlaps_on};

/// Adds the pairs of a place with each later one up to the last.
fn add_pairs(pairs: &mut Vec<PlainPair>, last: u32, one: u32) -> Result<(), Memory>
    requires few { last < 2 ^ 31 }
    requires one { one < last }
    ensures { IfOk result (λ _. pairs.new.items ≡ pairs.old.items ++ pairs_from last one) }
{
    for two in one + 1..last + 1 {
        pairs.push(PlainPair { one, two })?;
    }
    Ok(())
}

/// All pairs of places up to the last.
fn pairs_up_to(alloc: Global, last: u32) -> Result<Vec<PlainPair>, Memory>
    requires { last < 2 ^ 31 }
    ensures { IfOk result (λ v. v.items ≡ pairs_up_to last) }
{
    let mut pairs = Vec::new(alloc);
    for one in 0..last {
        add_pairs(&mut pairs, last, one)?;
    }
    Ok(pairs)
}

/// Whether the region of that place has no air and claims an interval.
fn is_solid_at(regions: &[PlainClaims], place: u32, k: usize) -> bool
    ensures { result ≡ is_solid_at (slice_get regions.now place) k }
{
    match regions.get(place as usize) {
        Some(r) => !r.air() && r.claims_at(k),
        None => false,
    }
}

fn do_overlap_at(regions: &[PlainClaims], pair: &PlainPair, k: usize) -> bool
    ensures { result ≡ do_overlap_at regions.now pair.now k }
{
    is_solid_at(regions, pair.one, k) && is_solid_at(regions, pair.two, k)
}

fn do_overlap_before(regions: &[PlainClaims], pair: &PlainPair, from: usize) -> bool
    ensures { result ≡ has_before (do_overlap_at regions.now pair.now) from }
{
    from > 0 && do_overlap_at(regions, pair, from - 1)
}

fn do_overlap_whole(regions: &[PlainClaims], pair: &PlainPair, run: &PlainRun) -> bool
    ensures { result ≡ list_all (do_overlap_at regions.now pair.now) (range_with_len run.now.from (run.now.to - run.now.from)) }
{
    (run.from()..run.to()).all(|k| do_overlap_at(regions, pair, k))
}

/// Whether the run is a maximal one of intervals that both regions claim.
fn is_overlap_run(regions: &[PlainClaims], pair: &PlainPair, run: &PlainRun) -> bool
    ensures { result ≡ is_maximal (do_overlap_at regions.now pair.now) run.now }
{
    do_overlap_whole(regions, pair, run)
        && (!do_overlap_before(regions, pair, run.from())
            && !do_overlap_at(regions, pair, run.to()))
}

/// The first of the runs that is such a one.
fn first_run(regions: &[PlainClaims], pair: &PlainPair, runs: &[PlainRun]) -> Option<PlainRun>
    ensures { result ≡ find (is_maximal (do_overlap_at regions.now pair.now)) runs.now }
{
    for run in runs {
        if is_overlap_run(regions, pair, run) {
            return Some(*run);
        }
    }
    None
}

/// The overlap that a run makes.
fn overlap_on(laid: &Laid, pair: &PlainPair, run: Option<PlainRun>) -> Option<OverlapRun>
    requires { laid.now.cuts.items ≡ cuts_of laid.now.segments.items }
    ensures { result ≡ overlap_on laid.now.segments.items pair.now run }
{
    match run {
        Some(run) => Some(OverlapRun {
            one: pair.one,
            two: pair.two,
            start: cut_at(&laid.cuts, run.from()).place(),
            end: cut_at(&laid.cuts, run.to()).place(),
        }),
        None => None,
    }
}

/// The overlap of a pair of regions, where they overlap.
fn first_overlap(laid: &Laid, pair: &PlainPair, runs: &[PlainRun]) -> Option<OverlapRun>
    requires cuts { laid.now.cuts.items ≡ cuts_of laid.now.segments.items }
    requires runs { runs.now ≡ runs_below (length (intervals_of laid.now.segments.items)) }
    ensures { result ≡ first_overlap laid.now.segments.items laid.now.regions.items pair.now }
{
    overlap_on(laid, pair, first_run(&laid.regions, pair, runs))
}

/// The overlaps of those of the pairs that overlap.
fn overlaps_of(
    alloc: Global,
    laid: &Laid,
    pairs: &[PlainPair],
    runs: &[PlainRun],
) -> Result<Vec<OverlapRun>, Memory>
    requires cuts { laid.now.cuts.items ≡ cuts_of laid.now.segments.items }
    requires runs { runs.now ≡ runs_below (length (intervals_of laid.now.segments.items)) }
    ensures { IfOk result (λ v. v.items ≡ filter_map (first_overlap laid.now.segments.items laid.now.regions.items) pairs.now) }
{
    let mut overlaps = Vec::new(alloc);
    for pair in pairs {
        if let Some(overlap) = first_overlap(laid, pair, runs) {
            overlaps.push(overlap)?;
        }
    }
    Ok(overlaps)
}

/// The first run of each pair of regions without air that overlap on a ray, by its definition alone: all pairs are tried,
/// and of each all runs of intervals.
pub fn plain_overlaps(alloc: Global, scene: &Scene, ray: &Ray) -> Result<Vec<OverlapRun>, Memory>
    requires { IsWithin WORLD ray.now.origin }
    ensures { IfOk result (λ v. v.items ≡ overlaps_on scene.now ray.now) }
{
    let laid = laid_of(alloc, scene, ray)?;
    let pairs = pairs_up_to(alloc, laid.regions.len().saturating_sub(1) as u32)?;
    let runs = runs_below(alloc, laid.count)?;
    overlaps_of(alloc, &laid, &pairs, &runs)
}
