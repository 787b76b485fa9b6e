ghost use Rattle.scene_prep.specs.Laws.{TreesAreWhole, RegionsAreWhole, SizesAreWhole, SizesCountLeaves, RegionsAreWithinSize, RegionsHoldTogether, NumbersFollow, PlacementsAreOne, PartitionsOfNamesTellPoints, OverlapsOfNamesTellPoints, SeenOfNamesTellsPoints};

/// Laws of the regions of names, of their trees and their sizes. The function does nothing: its contract is the laws.
pub fn region_laws()
    ensures trees { TreesAreWhole }
    ensures regions { RegionsAreWhole }
    ensures sizes { SizesAreWhole }
    ensures leaves { SizesCountLeaves }
    ensures within { RegionsAreWithinSize }
    ensures together { RegionsHoldTogether }
    ensures numbers { NumbersFollow }
    ensures placements { PlacementsAreOne }
{}

/// Laws of the points of a ray and the regions of names: the partitions tell what lies there, and no other list of stretches does;
/// the overlaps tell where two regions without air first both hold; what is shown first begins where first a region without air
/// holds. The function does nothing: its contract is the laws.
pub fn point_laws()
    ensures partitions { PartitionsOfNamesTellPoints }
    ensures overlaps { OverlapsOfNamesTellPoints }
    ensures seen { SeenOfNamesTellsPoints }
{}
