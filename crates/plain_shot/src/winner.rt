ghost use Rattle.std.specs.Prelude.{◌≡◌, ◌-◌};
ghost use Rattle.std.specs.List.{list_all, range_with_len};
ghost use Rattle.overlap_list.specs.Winners.{first_without_air, first_with_air, winner_of};
ghost use Rattle.overlap_list.specs.Runs.{has_before};
ghost use Rattle.overlap_list.specs.Partitions.{is_one_winner, is_won_as};
ghost use Rattle.plain_shot.specs.Steps.{is_won_run};

use crate::claim::PlainClaims;
use crate::run::PlainRun;

/// The place of the first region without air that claims an interval.
fn first_without_air(regions: &[PlainClaims], k: usize) -> Option<usize>
    ensures { result ≡ first_without_air regions.now k }
{
    regions.iter().position(|r| !r.air() && r.claims_at(k))
}

/// The place of the first region with air that claims an interval.
fn first_with_air(regions: &[PlainClaims], k: usize) -> Option<usize>
    ensures { result ≡ first_with_air regions.now k }
{
    regions.iter().position(|r| r.air() && r.claims_at(k))
}

/// The place of the region that wins an interval.
pub(crate) fn winner_of(regions: &[PlainClaims], k: usize) -> Option<usize>
    ensures { result ≡ winner_of regions.now k }
{
    match first_without_air(regions, k) {
        Some(place) => Some(place),
        None => first_with_air(regions, k),
    }
}

fn is_one_winner(one: Option<usize>, two: Option<usize>) -> bool
    ensures { result ≡ is_one_winner one two }
{
    match (one, two) {
        (Some(one), Some(two)) => one == two,
        _ => false,
    }
}

/// Whether an interval has the winner that interval `from` has.
fn is_won_as(regions: &[PlainClaims], from: usize, k: usize) -> bool
    ensures { result ≡ is_won_as regions.now from k }
{
    is_one_winner(winner_of(regions, from), winner_of(regions, k))
}

/// Whether the interval before the run has the winner of the run's first one.
fn is_won_before(regions: &[PlainClaims], from: usize) -> bool
    ensures { result ≡ has_before (is_won_as regions.now from) from }
{
    from > 0 && is_won_as(regions, from, from - 1)
}

/// Whether all intervals of the run have the winner of its first one.
fn is_won_whole(regions: &[PlainClaims], run: &PlainRun) -> bool
    ensures { result ≡ list_all (is_won_as regions.now run.now.from) (range_with_len run.now.from (run.now.to - run.now.from)) }
{
    (run.from()..run.to()).all(|k| is_won_as(regions, run.from(), k))
}

/// Whether the run is a maximal one with one winner.
pub(crate) fn is_won_run(regions: &[PlainClaims], run: &PlainRun) -> bool
    ensures { result ≡ is_won_run regions.now run.now }
{
    is_won_whole(regions, run)
        && (!is_won_before(regions, run.from()) && !is_won_as(regions, run.from(), run.to()))
}
