ghost use Rattle.std.specs.Prelude.{◌≡◌, ◌<◌, ◌^◌, ◌++◌, ℕ, IfOk, All, length, map, filter};
ghost use Rattle.bool_weave.specs.Claims.{intervals_of};
ghost use Rattle.overlap_list.specs.Partitions.{is_won_as, partition_of, partitions_of};
ghost use Rattle.overlap_list.specs.Runs.{runs_from};
ghost use Rattle.overlap_list.specs.Winners.{winner_of};
ghost use Rattle.overlap_list.specs.Steps.{winner_at, passes};

use crate::hit::{Hit, hit_at};
use crate::region::RegionClaims;
use crate::winner::{run_end, winner_from, winners_of};
use bool_weave::Weave;
use memory_core::Memory;
use std::alloc::Global;
use surd_order::Pos;

/// A part of a ray that one region has.
#[derive(Clone, Copy, Debug, PartialEq, Eq)]
pub struct Partition {
    /// The region's place, counted from 0.
    pub region: u32,
    /// Where it starts.
    pub start: Pos,
    /// Where it ends.
    pub end: Pos,
    /// What is hit at its start.
    pub hit: Hit,
}

/// Adds the partition that begins with an interval, where one does.
fn add_partition(
    partitions: &mut Vec<Partition>,
    weave: &Weave,
    regions: &[RegionClaims],
    winners: &[Option<u32>],
    from: u32,
) -> Result<(), Memory>
    requires from { from < length winners.now }
    requires count { length winners.now ≡ length (intervals_of weave.now) }
    requires winners { (k : ℕ) → winner_at winners.now k ≡ winner_of regions.now k }
    requires rows { All (λ r. length r.claims ≡ length (intervals_of weave.now)) regions.now }
    ensures { IfOk result (λ _. partitions.new.items ≡ partitions.old.items ++ map (partition_of weave.now regions.now) (filter (passes (is_won_as regions.now)) (runs_from (length (intervals_of weave.now)) from))) }
{
    let Some(region) = winner_from(winners, from as usize) else {
        return Ok(());
    };
    let cuts = weave.cuts();
    let start = cuts[from as usize];
    let end = cuts[run_end(winners, from as usize)];
    let hit = hit_at(weave.woven(), regions, from, &start);
    partitions.push(Partition {
        region,
        start,
        end,
        hit,
    })?;
    Ok(())
}

/// The partitions of a ray, in order: the maximal runs of neighbouring intervals with one winner.
pub fn settle(
    alloc: Global,
    weave: &Weave,
    regions: &[RegionClaims],
) -> Result<Vec<Partition>, Memory>
    requires few { length regions.now < 2 ^ 31 }
    requires rows { All (λ r. length r.claims ≡ length (intervals_of weave.now)) regions.now }
    ensures { IfOk result (λ v. v.items ≡ partitions_of weave.now regions.now) }
{
    let count = (weave.cuts().len() - 1) as u32;
    let winners = winners_of(alloc, count as usize, regions)?;
    let mut partitions = Vec::new(alloc);
    for from in 0..count {
        add_partition(&mut partitions, weave, regions, &winners, from)?;
    }
    Ok(partitions)
}
