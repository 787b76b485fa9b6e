ghost use Rattle.shot_core.specs.TreeBoxes.{AreHullAndMeet};
ghost use Rattle.shot_core.specs.MetBoxes.{TellsWhetherMet};
ghost use Rattle.shot_core.specs.FirstShots.{SeenAtFirstPlace, NothingSeenElse, OwnSegmentsTell};
ghost use Rattle.shot_core.specs.RegionBoxes.{BoxesHoldClaims, MissedRegionsClaimNothing};
ghost use Rattle.shot_core.specs.Pruned.{TellsWhetherShared, TellsWhetherTileMet, KeptSeeTheSame, KeptOverlapTheSame};
ghost use Rattle.shot_core.specs.Candidates.{CandidatesOverlapTheSame};
ghost use Rattle.shot_core.specs.SegmentLaws.{AreRayEnds, AreSegments};
ghost use Rattle.shot_core.specs.Points.{PartitionsTellPoints};
ghost use Rattle.shot_core.specs.OverlapPoints.{OverlapsTellPoints};
ghost use Rattle.shot_core.specs.SeenPoints.{SeenTellsPoints};

/// Laws of the boxes of trees and of the boxes that a ray meets. The function does nothing: its contract is the laws.
pub fn box_laws()
    ensures joined { AreHullAndMeet }
    ensures met { TellsWhetherMet }
{}

/// Laws of what is seen first. The function does nothing: its contract is the laws.
pub fn first_seen_laws()
    ensures first { SeenAtFirstPlace }
    ensures none { NothingSeenElse }
    ensures own { OwnSegmentsTell }
{}

/// Laws of claims and boxes. The function does nothing: its contract is the laws.
pub fn claim_box_laws()
    ensures held { BoxesHoldClaims }
    ensures missed { MissedRegionsClaimNothing }
{}

/// Laws of the regions that are kept for a tile, and of those that may overlap another one. The function does nothing: its contract is the laws.
pub fn kept_laws()
    ensures shared { TellsWhetherShared }
    ensures tile { TellsWhetherTileMet }
    ensures seen { KeptSeeTheSame }
    ensures overlaps { KeptOverlapTheSame }
    ensures candidates { CandidatesOverlapTheSame }
{}

/// Laws of segments. Solids say what a segment is that they answer, and cuts say what one is that is woven in; neither stands
/// on the other, so both say it, and the laws are that they say the same. The function does nothing: its contract is the laws.
pub fn segment_laws()
    ensures ends { AreRayEnds }
    ensures segments { AreSegments }
{}

/// Laws of the points of a ray: its partitions tell what lies there, and no other list of stretches does; its overlaps tell where
/// two regions without air first both hold; and what it shows first begins where first a region without air holds. The function
/// does nothing: its contract is the laws.
pub fn point_laws()
    ensures partitions { PartitionsTellPoints }
    ensures overlaps { OverlapsTellPoints }
    ensures seen { SeenTellsPoints }
{}
