ghost use Rattle.overlap_list.specs.Laws.{WinnersAreRight, RunsAreMaximal, PartitionsAreInOrder, PartitionsAreOnTheRay, PartitionsAreWon, ClaimsArePartitioned, HitsAreThere, OverlapsAreInOrder, OverlapsAreFirst, OverlapsAreOnTheRay};
ghost use Rattle.overlap_list.specs.Firsts.{FirstStartsAtFirstPlace, NoneWithoutPlace};
ghost use Rattle.overlap_list.specs.FirstOverlaps.{OverlapsAreByPlaces, FirstStretchIsOverlap, NoOverlapWithoutStretch};

/// Laws of winners, of partitions and of their hits. The function does nothing: its contract is the laws.
pub fn partition_laws()
    ensures winners { WinnersAreRight }
    ensures runs { RunsAreMaximal }
    ensures order { PartitionsAreInOrder }
    ensures places { PartitionsAreOnTheRay }
    ensures won { PartitionsAreWon }
    ensures all { ClaimsArePartitioned }
    ensures hits { HitsAreThere }
{}

/// Laws of overlaps. The function does nothing: its contract is the laws.
pub fn overlap_laws()
    ensures order { OverlapsAreInOrder }
    ensures first { OverlapsAreFirst }
    ensures places { OverlapsAreOnTheRay }
{}

/// Laws of the first partition whose region has no air. The function does nothing: its contract is the laws.
pub fn first_laws()
    ensures first { FirstStartsAtFirstPlace }
    ensures none { NoneWithoutPlace }
{}

/// Laws of the first overlap of two regions. The function does nothing: its contract is the laws.
pub fn first_overlap_laws()
    ensures places { OverlapsAreByPlaces }
    ensures stretch { FirstStretchIsOverlap }
    ensures none { NoOverlapWithoutStretch }
{}
